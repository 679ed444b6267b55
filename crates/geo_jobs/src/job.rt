//! A job, which goes on by turns of its role.
ghost use Rattle.std.specs.Prelude.{◌≡◌, false};
ghost use Rattle.geo_lock.specs.Yard.{IsPassOf};
ghost use Rattle.geo_serve.specs.Drives.{drive_view};
ghost use Rattle.geo_jobs.specs.Passes.{IsGoodPass, opened_by};
ghost use Rattle.geo_jobs.specs.declared.turn.Turn.TheVariants as turns;
ghost use Rattle.geo_jobs.specs.declared.job.Role.TheVariants as roles;
ghost use Rattle.geo_jobs.specs.Jobs.{DidTurn, HasItsDrives, IsJobOf, IsRoleOf, drives_of, is_in_vain, publisher_of};
ghost use Rattle.geo_jobs.specs.Runs.{EndedBy, JobRan, RestedFor};

use crate::client::ClientJob;
use crate::disk_job::DiskJob;
use crate::down::DownJob;
use crate::drive_list::DriveList;
use crate::events::EventJob;
use crate::gate::Gate;
use crate::lanes::Lanes;
use crate::publisher::Publisher;
use crate::turn::Turn;
use crate::up::UpJob;
use geo_core::Mesh;
use geo_disk::Disk;
use geo_lane::LanePass;
use geo_lock::{Pass, Yard};
use std::sync::Wait;
use std::thread;

// A job ends after so many idle turns in a row.
const IDLE_LIMIT: u32 = 100_000;

/// What a job does.
#[derive(Drop)]
pub enum Role<D> {
    Client(ClientJob),
    Events(EventJob),
    Down(DownJob),
    Up(UpJob),
    Disk(DiskJob<D>),
}

/// A job: the pass by which it makes its steps, its role, and whether its turns are in vain until the log grows beyond
/// what the pass has seen.
#[derive(Drop)]
pub struct Job<D> {
    pub pass: Pass<Mesh>,
    pub role: Role<D>,
    pub quiet: bool,
}

/// What a job leaves: its pass, and the drives of a disk worker.
#[derive(Drop)]
pub struct JobParts<D> {
    pub pass: Pass<Mesh>,
    pub drives: Option<DriveList<D>>,
}

impl<D> Job<D> {
    /// The client of an actor, which made no command yet. `down` puts into the down lane, and the publisher, if there
    /// is one, shows each listing that the client is replied.
    pub fn client(
        pass: Pass<Mesh>,
        actor: u32,
        down: LanePass,
        publisher: Option<Publisher>,
    ) -> Job<D>
        ensures pass { result.pass ≡ pass }
        ensures role { result.role
            ≡ roles.Client (record { actor = actor; line = 0; down = down; publisher = publisher }) }
        ensures quiet { result.quiet ≡ false }
    {
        let job = ClientJob {
            actor,
            line: 0,
            down,
            publisher,
        };
        Job {
            pass,
            role: Role::Client(job),
            quiet: false,
        }
    }

    /// The event worker. `down` puts into the down lane.
    pub fn events(pass: Pass<Mesh>, down: LanePass) -> Job<D>
        ensures pass { result.pass ≡ pass }
        ensures role { result.role ≡ roles.Events (record { down = down }) }
        ensures quiet { result.quiet ≡ false }
    {
        Job {
            pass,
            role: Role::Events(EventJob { down }),
            quiet: false,
        }
    }

    /// The down worker. `down` takes from the down lane and puts into it, the others put into their lanes.
    pub fn down(
        pass: Pass<Mesh>,
        down: LanePass,
        up: LanePass,
        disk0: LanePass,
        disk1: LanePass,
    ) -> Job<D>
        ensures pass { result.pass ≡ pass }
        ensures role { result.role ≡ roles.Down (record { down = down; up = up; disk0 = disk0; disk1 = disk1 }) }
        ensures quiet { result.quiet ≡ false }
    {
        let job = DownJob {
            down,
            up,
            disk0,
            disk1,
        };
        Job {
            pass,
            role: Role::Down(job),
            quiet: false,
        }
    }

    /// The up worker. `up` takes from the up lane and puts into it.
    pub fn up(pass: Pass<Mesh>, up: LanePass) -> Job<D>
        ensures pass { result.pass ≡ pass }
        ensures role { result.role ≡ roles.Up (record { up = up }) }
        ensures quiet { result.quiet ≡ false }
    {
        Job {
            pass,
            role: Role::Up(UpJob { up }),
            quiet: false,
        }
    }

    /// A disk worker with its number, 0 or 1, and its drives. `own` takes from its own lane, and `up` puts into the up
    /// lane.
    pub fn disk(
        pass: Pass<Mesh>,
        worker: u32,
        drives: DriveList<D>,
        own: LanePass,
        up: LanePass,
    ) -> Job<D>
        ensures pass { result.pass ≡ pass }
        ensures role { result.role ≡ roles.Disk (record { worker = worker; drives = drives; own = own; up = up }) }
        ensures quiet { result.quiet ≡ false }
    {
        let job = DiskJob {
            worker,
            drives,
            own,
            up,
        };
        Job {
            pass,
            role: Role::Disk(job),
            quiet: false,
        }
    }
}

impl<D> Job<D> {
    // Whether, after an idle turn before which the pass had seen so much, the next one is in vain until the log grows:
    // a client's is, and the event worker's if the pass saw no more in that turn.
    fn is_in_vain(&self, seen: u64) -> bool
        ensures { result ≡ is_in_vain self.now seen }
    {
        match &self.role {
            Role::Client(_) => true,
            Role::Events(_) => self.pass.len() == seen,
            _ => false,
        }
    }
}

impl<D: Drop> Job<D> {
    /// Takes away by what a client shows, if it shows.
    pub fn take_publisher(&mut self) -> Option<Publisher>
        ensures publisher { result ≡ publisher_of self.old.role }
        ensures pass { self.new.pass ≡ self.old.pass }
        ensures drives { drives_of self.new.role ≡ drives_of self.old.role }
    {
        match &mut self.role {
            Role::Client(job) => job.publisher.take(),
            _ => None,
        }
    }

    /// The job's pass, and its drives, if it is a disk worker.
    pub fn parts(self) -> JobParts<D>
        ensures pass { result.pass ≡ self.pass }
        ensures drives { result.drives ≡ drives_of self.role }
    {
        let Job { pass, role, .. } = self;
        let drives = match role {
            Role::Disk(job) => Some(drives_in(job)),
            _ => None,
        };
        JobParts { pass, drives }
    }
}

// The drives of a disk worker.
fn drives_in<D: Drop>(job: DiskJob<D>) -> DriveList<D>
    ensures { result ≡ job.drives }
{
    let DiskJob { drives, .. } = job;
    drives
}

impl<D: Disk + Drop> Job<D> {
    /// One turn. A quiet job whose pass has seen all of the log, by one look at its length, is idle again. Another one
    /// has a turn of its role.
    #[tactic(auto, using(crate::proofs::Quiet::same_turn, crate::proofs::Quiet::other_job))]
    pub fn turn<R: Wait + AllocGlobal, G: Gate>(
        &mut self,
        rt: &R,
        yard: &Yard<Mesh>,
        lanes: &Lanes,
        gate: &G,
    ) -> Turn
        requires job { IsJobOf yard.now lanes.now self.old }
        requires drives { HasItsDrives yard.now.start.facts (drive_view D.view) self.old.role }
        ensures job { IsJobOf yard.now lanes.now self.new }
        ensures drives { HasItsDrives yard.now.start.facts (drive_view D.view) self.new.role }
        ensures good { IsGoodPass self.new.pass }
        ensures did { DidTurn (opened_by yard.now.start) (drive_view D.view) self.old self.new result }
    {
        if self.quiet && !yard.has_news(&self.pass) {
            // The number of a pass tells that it is good at this moment too.
            let _ = self.pass.number();
            return Turn::Idle;
        }
        let seen = self.pass.len();
        match self.turn_of_role(rt, yard, lanes, gate) {
            Turn::Idle => {
                self.quiet = self.is_in_vain(seen);
                Turn::Idle
            }
            other => {
                self.quiet = false;
                other
            }
        }
    }

    // One turn of the job's role.
    fn turn_of_role<R: Wait + AllocGlobal, G: Gate>(
        &mut self,
        rt: &R,
        yard: &Yard<Mesh>,
        lanes: &Lanes,
        gate: &G,
    ) -> Turn
        requires job { IsJobOf yard.now lanes.now self.old }
        requires drives { HasItsDrives yard.now.start.facts (drive_view D.view) self.old.role }
        ensures pass { IsPassOf yard.now self.new.pass }
        ensures role { IsRoleOf lanes.now self.new.pass self.new.role }
        ensures drives { HasItsDrives yard.now.start.facts (drive_view D.view) self.new.role }
        ensures good { IsGoodPass self.new.pass }
        ensures did { DidTurn (opened_by yard.now.start) (drive_view D.view) self.old self.new result }
    {
        let pass = &mut self.pass;
        match &mut self.role {
            Role::Client(job) => job.turn(pass, rt, yard, lanes, gate),
            Role::Events(job) => job.turn(pass, rt, yard, lanes),
            Role::Down(job) => job.turn(pass, rt, yard, lanes),
            Role::Up(job) => job.turn(pass, rt, yard, lanes),
            Role::Disk(job) => job.turn(pass, rt, yard, lanes, gate),
        }
    }

    /// Turns until the answer is neither `Worked` nor `Idle`, or 100,000 turns in a row were idle. The answer of the
    /// last one.
    pub fn go<R: Wait + AllocGlobal, G: Gate>(
        &mut self,
        rt: &R,
        yard: &Yard<Mesh>,
        lanes: &Lanes,
        gate: &G,
    ) -> Turn
        requires job { IsJobOf yard.now lanes.now self.old }
        requires drives { HasItsDrives yard.now.start.facts (drive_view D.view) self.old.role }
        ensures job { IsJobOf yard.now lanes.now self.new }
        ensures drives { HasItsDrives yard.now.start.facts (drive_view D.view) self.new.role }
        ensures good { IsGoodPass self.new.pass }
        ensures ran { JobRan (drive_view D.view) self.old self.new }
        ensures ended { EndedBy (opened_by yard.now.start) (drive_view D.view) self.old self.new result }
        ensures rested { result ≡ turns.Idle
            → RestedFor (opened_by yard.now.start) (drive_view D.view) 100000 self.old self.new }
    {
        let mut idle = 0u32;
        for _ in rt.forever() {
            match self.turn(rt, yard, lanes, gate) {
                Turn::Worked => idle = 0,
                Turn::Idle => {
                    idle += 1;
                    if idle == IDLE_LIMIT {
                        return Turn::Idle;
                    }
                    thread::yield_now();
                }
                other => return other,
            }
        }
        unreachable!()
    }
}
