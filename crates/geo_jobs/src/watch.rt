//! Who looks at the mesh while the jobs of a run make its steps.
ghost use Rattle.std.specs.Prelude.{◌≡◌, None, Some};
ghost use Rattle.geo_jobs.specs.declared.left.Seen.TheVariants.{Nothing};
ghost use Rattle.geo_jobs.specs.Closing.{answers_of, lists_of, passes_of};
ghost use Rattle.geo_jobs.specs.Viewed.{IsLastLook, LooksAt, first_publisher};

use crate::left::Seen;
use crate::publisher::Publisher;
use crate::run::Worker;
use crate::watcher::Watcher;

/// How often a watcher looks beside the jobs.
const LOOKS: u32 = 1_000;

/// Looks a thousand times, whatever is seen.
pub fn look_on(mut watcher: Watcher) -> Watcher
    ensures view { result.view ≡ watcher.view }
    ensures of { result.of ≡ watcher.of }
{
    for _ in 0..LOOKS {
        let _ = watcher.look();
    }
    watcher
}

/// Takes away by what the first worker shows, if it shows.
pub fn take_publisher<D: Drop>(workers: &mut Vec<Worker<D>>) -> Option<Publisher>
    ensures publisher { result ≡ first_publisher workers.old.items }
    ensures passes { passes_of workers.new.items ≡ passes_of workers.old.items }
    ensures lists { lists_of workers.new.items ≡ lists_of workers.old.items }
    ensures answers { answers_of workers.new.items ≡ answers_of workers.old.items }
{
    match workers.first_mut() {
        Some(worker) => worker.job.take_publisher(),
        None => None,
    }
}

// Looks once more, after the publisher told where its view stands. Then the publisher learns what was seen, and ends.
fn look_once<R: AllocGlobal>(rt: &R, mut watcher: Watcher, publisher: Option<Publisher>) -> Seen
    requires { LooksAt (Some watcher) publisher }
    ensures { IsLastLook (Some watcher) publisher result }
{
    let Some(mut publisher) = publisher else {
        unreachable!()
    };
    let note = publisher.tell();
    watcher.learn(note);
    let list = watcher.look();
    let seen = watcher.tell();
    publisher.learn(seen);
    publisher.end(rt);
    match list {
        Ok(list) => Seen::List(list),
        Err(_) => Seen::NoMemory,
    }
}

/// Looks once more, if anybody looks: what is seen is just what was shown last.
pub fn look_last<R: AllocGlobal>(
    rt: &R,
    watcher: Option<Watcher>,
    publisher: Option<Publisher>,
) -> Seen
    requires { LooksAt watcher publisher }
    ensures none { watcher ≡ None → result ≡ Nothing }
    ensures last { IsLastLook watcher publisher result }
{
    let Some(watcher) = watcher else {
        return Seen::Nothing;
    };
    look_once(rt, watcher, publisher)
}
