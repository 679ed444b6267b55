//! The rule of a view, and the kinds of step that keep it.
use crate::known::Known;
use crate::shown::Shown;
use atomic_table::{Join, Play, Split, TableRule};
use geo_core::Mesh;
use geo_lock::Pass;
use std::snapshot::Snapshot;

/// The rule. It holds between any two steps.
pub struct Keeping;

impl TableRule<Option<Shown>, Known, Snapshot<Pass<Mesh>>> for Keeping {
    ghost use Rattle.geo_jobs.specs.Kept.{IsKept};
    ghost use Rattle.geo_jobs.specs.Views.{publisher_at_start};

    ghost holds = { λ k. IsKept k.value };

    ghost first = { λ k. publisher_at_start k.value };
}

/// The publisher takes its slot.
pub struct TakeBack;

impl Play<Option<Shown>, Known> for TakeBack {
    ghost use Rattle.geo_jobs.specs.Kept.{TakesSlotBack};

    ghost then = { TakesSlotBack };
}

/// The publisher shows what is in its slot, and has the slot that waited.
pub struct Show;

impl Play<Option<Shown>, Known> for Show {
    ghost use Rattle.geo_jobs.specs.Kept.{ShowsIt};

    ghost then = { ShowsIt };
}

/// The publisher finds that what it was told of begins what it shows.
pub struct Agree;

impl Play<Option<Shown>, Known> for Agree {
    ghost use Rattle.geo_jobs.specs.Kept.{Agrees};

    ghost then = { Agrees };
}

/// The watcher looks whether a newer list waits.
pub struct Peep;

impl Play<Option<Shown>, Known> for Peep {
    ghost use Rattle.geo_jobs.specs.Kept.{Peeps};

    ghost then = { Peeps };
}

/// The watcher takes the list that waits.
pub struct Fetch;

impl Play<Option<Shown>, Known> for Fetch {
    ghost use Rattle.geo_jobs.specs.Kept.{Fetches};

    ghost then = { Fetches };
}

/// The watcher comes.
pub struct Meeting;

impl Split<Known> for Meeting {
    ghost use Rattle.geo_jobs.specs.Views.{met, watcher_coming};

    ghost left = { met };

    ghost right = { watcher_coming };
}

/// A note is made, and learned.
pub struct Notes;

impl Split<Known> for Notes {
    ghost use Rattle.geo_jobs.specs.Views.{note};

    ghost left = { λ v. v };

    ghost right = { note };
}

impl Join<Known> for Notes {
    ghost use Rattle.geo_jobs.specs.Views.{informed, learned_note};

    ghost both = { informed };

    ghost spent = { learned_note };
}
