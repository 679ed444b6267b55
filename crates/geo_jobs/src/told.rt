//! What an end of a view tells.
ghost use Rattle.std.specs.Prelude.{◌≡◌, []};

use crate::known::Known;
use crate::shown::Shown;
use atomic_table::Seat;
use std::marker::Model;

/// Where a view stood, to be learned by its watcher; or what a watcher saw, to be learned by its publisher. It has no
/// bytes.
///
/// Contracts see which view it is, and what its pass had seen of which the list was shown, or seen, then.
pub struct Told {
    pub(crate) note: Seat<Option<Shown>, Known>,
}

impl Model for Told {
    ghost use Rattle.std.specs.Prelude.{◌≡◌, []};
    ghost use Rattle.geo_jobs.specs.Ends.{ToldView};
    ghost use Rattle.geo_jobs.specs.declared.role.Role.TheVariants.{Note};

    ghost Value = { ToldView };

    ghost view = { λ t. record { view = t.note.table_id; stood = t.note.me.0.seen } };

    ghost invariant = { λ t. (t.note.me.1 ≡ []) × (t.note.me.0.role ≡ Note) };
}

impl Told {
    pub(crate) fn into_note(self) -> Seat<Option<Shown>, Known>
        ensures { (result.table_id ≡ self.view) × (result.me.1 ≡ []) × (result.me.0.seen ≡ self.stood) }
    {
        let Self { note } = self;
        note
    }
}

impl Drop for Told {
    fn drop(self) {
        let Self { note: _note } = self;
    }
}
