//! The end of a run: its workers come home, and the yard is closed.
ghost use Rattle.std.specs.Prelude.{◌≡◌, ◌+◌, ◌<◌, ◌≤◌, [], ◌∷◌, ◌++◌, length, vec_capacity, vec_len};
ghost use Rattle.std.specs.Option.{option_to_list};
ghost use Rattle.geo_lock.specs.Yard.{IsWhole};
ghost use Rattle.geo_jobs.specs.Closing.{EndsYard, IsEndOf, lists_of, passes_of, worse};
ghost use Rattle.geo_jobs.specs.Deal.{AreTwo, gathered_of};
ghost use Rattle.geo_jobs.specs.Rooms.{CanComeHome};

use crate::deal::gather;
use crate::drive_list::DriveList;
use crate::job::JobParts;
use crate::left::{JobsEnd, Left, Seen};
use crate::room::HomeRoom;
use crate::run::Worker;
use crate::turn::Turn;
use geo_core::Mesh;
use geo_disk::Drive;
use geo_lock::{Pass, PassList, Yard};

// How the jobs so far and one more ended.
fn worse(ended: JobsEnd, answer: Turn) -> JobsEnd
    ensures { result ≡ worse ended answer }
{
    match answer {
        Turn::NoMemory => JobsEnd::NoMemory,
        Turn::LogFull => match ended {
            JobsEnd::NoMemory => JobsEnd::NoMemory,
            _ => JobsEnd::LogFull,
        },
        _ => ended,
    }
}

// How the jobs ended.
fn end_of<D>(workers: &[Worker<D>]) -> JobsEnd
    ensures { IsEndOf workers.now result }
{
    let mut ended = JobsEnd::Idle;
    for k in 0..workers.len() {
        ended = worse(ended, workers[k].answer);
    }
    ended
}

// Keeps the drives of a disk worker, in room that was made.
fn keep<D>(drives: Option<DriveList<D>>, lists: &mut Vec<DriveList<D>>)
    requires { vec_len lists.old < vec_capacity lists.old }
    ensures items { lists.new.items ≡ lists.old.items ++ option_to_list drives }
    ensures len { vec_len lists.new ≤ vec_len lists.old + 1 }
    ensures room { vec_capacity lists.new ≡ vec_capacity lists.old }
{
    if let Some(list) = drives {
        lists.push_reserved(list);
    }
}

// The passes of workers and the lists of the disk workers, in room that was made.
fn take_back<D: Drop>(
    workers: Vec<Worker<D>>,
    passes: &mut PassList<Mesh>,
    lists: &mut Vec<DriveList<D>>,
)
    requires room { length workers.items ≤ passes.old.spare }
    requires room_of_lists { vec_len lists.old + length workers.items ≤ vec_capacity lists.old }
    ensures passes { passes.new.items ≡ passes.old.items ++ passes_of workers.items }
    ensures lists { lists.new.items ≡ lists.old.items ++ lists_of workers.items }
{
    for worker in workers {
        let JobParts { pass, drives } = worker.job.parts();
        passes.push(pass);
        keep(drives, lists);
    }
}

// The drives of the lists of the two disk workers, in turn.
fn gather_all<D: Drop>(mut lists: Vec<DriveList<D>>, mut back: Vec<Drive<D>>) -> Vec<Drive<D>>
    requires none { back.items ≡ [] }
    requires two { AreTwo (vec_capacity back) lists.items }
    ensures { result.items ≡ gathered_of lists.items }
{
    let Some(odd) = lists.pop() else {
        unreachable!()
    };
    let Some(even) = lists.pop() else {
        unreachable!()
    };
    gather(even, odd, &mut back);
    back
}

/// Takes the passes and the drives of workers that have ended, closes the yard, and says how the jobs ended, and what
/// was seen last. The room is empty, with room for all.
pub fn close_all<D: Drop, R: AllocGlobal>(
    rt: &R,
    yard: Yard<Mesh>,
    first: Pass<Mesh>,
    workers: Vec<Worker<D>>,
    room: HomeRoom<D>,
    seen: Seen,
) -> Left<D>
    requires whole { IsWhole yard (first ∷ passes_of workers.items) }
    requires two { AreTwo (vec_capacity room.back) (lists_of workers.items) }
    requires room { CanComeHome (length workers.items) room }
    ensures ended { IsEndOf workers.items result.ended }
    ensures seen { result.seen ≡ seen }
    ensures mesh { EndsYard yard (first ∷ passes_of workers.items) result.mesh }
    ensures drives { result.drives.items ≡ gathered_of (lists_of workers.items) }
{
    let HomeRoom {
        mut passes,
        mut lists,
        back,
    } = room;
    let ended = end_of(workers.as_slice());
    passes.push(first);
    take_back(workers, &mut passes, &mut lists);
    let drives = gather_all(lists, back);
    let Ok(mesh) = yard.close(rt, passes) else {
        unreachable!()
    };
    Left {
        mesh,
        drives,
        ended,
        seen,
    }
}
