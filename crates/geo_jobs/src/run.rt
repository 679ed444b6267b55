//! Jobs that run at once.
ghost use Rattle.std.specs.Prelude.{◌<◌, length, All};
ghost use Rattle.std.specs.List.{AllZip};
ghost use Rattle.geo_serve.specs.Drives.{drive_view};
ghost use Rattle.geo_jobs.specs.Workers.{IsReady, WorkerRan};

use crate::gate::Gate;
use crate::job::Job;
use crate::lanes::Lanes;
use crate::turn::Turn;
use geo_core::Mesh;
use geo_disk::Disk;
use geo_lock::Yard;
use std::sync::Wait;
use std::thread;
use std::thread::Threads;

/// A job, and the answer at which it ended.
#[derive(Drop)]
pub struct Worker<D> {
    pub job: Job<D>,
    pub answer: Turn,
}

impl<D: Disk + Drop> Worker<D> {
    // Lets the job go, and keeps its answer.
    fn go<R: Wait + AllocGlobal, G: Gate>(
        &mut self,
        rt: &R,
        yard: &Yard<Mesh>,
        lanes: &Lanes,
        gate: &G,
    )
        requires { IsReady yard.now lanes.now (drive_view D.view) self.old }
        ensures { WorkerRan yard.now lanes.now (drive_view D.view) self.old self.new }
    {
        self.answer = self.job.go(rt, yard, lanes, gate);
    }
}

/// Runs jobs at once, each in a thread of its own where one can be made, until all have ended. Where no thread can be
/// made they run one after another, and end too.
pub fn run_jobs<D: Disk + Drop + Send, G: Gate + Sync, R: Threads + Wait + Sync + AllocGlobal>(
    rt: &R,
    yard: &Yard<Mesh>,
    lanes: &Lanes,
    gate: &G,
    workers: &mut [Worker<D>],
)
    requires some { 0 < length workers.old }
    requires ready { All (IsReady yard.now lanes.now (drive_view D.view)) workers.old }
    ensures { AllZip (WorkerRan yard.now lanes.now (drive_view D.view)) workers.old workers.new }
{
    let threads = workers.len();
    thread::for_each_mut(
        rt,
        workers,
        threads,
        &|_: usize, worker: &mut Worker<D>|
            requires { IsReady yard.now lanes.now (drive_view D.view) worker.old }
            ensures { WorkerRan yard.entry.now lanes.entry.now (drive_view D.view) worker.old worker.new }
        { worker.go(rt, yard, lanes, gate) },
    );
}
