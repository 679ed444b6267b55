//! A running sum, the smallest state that can be locked.
ghost use Rattle.std.specs.Prelude.{◌≡◌, ℕ, []};

use crate::logged::Logged;
use std::alloc::Global;
use std::marker::Model;

// The longest log that a tally keeps.
const LOG_ROOM: usize = 1 << 32;

/// A seat, what it added and the sum so far.
#[derive(Debug, Drop)]
pub struct Added {
    pub seat: u32,
    pub added: u64,
    pub sum: u64,
}

/// Why a number isn't added.
#[derive(Debug, Drop)]
pub enum TallyRefusal {
    /// The sum would pass 2^64 - 1, or the log has 2^32 entries.
    Full,
    NoMemory,
}

/// A sum and the log of what was added to it, seen as the log. A step is a number, and its outcome the
/// sum after it.
#[derive(Drop)]
pub struct Tally {
    sum: u64,
    log: Vec<Added>,
}

impl Model for Tally {
    ghost use Rattle.std.specs.Prelude.{◌≡◌, ◌≤◌, ◌^◌, List, length};
    ghost use Rattle.geo_lock.specs.declared.tally.Added.{Added};

    ghost Value = { List Added };

    ghost use Rattle.geo_lock.specs.Tally.{total, IsSummedFrom};

    ghost view = { λ t. t.log.items };

    ghost invariant = { λ t. (t.sum ≡ total t.log.items) × IsSummedFrom 0 t.log.items × (length t.log.items ≤ 2 ^ 32) };
}

impl Tally {
    /// A sum of 0 with an empty log.
    pub fn new(alloc: Global) -> Tally
        ensures { result ≡ [] }
    {
        Tally {
            sum: 0,
            log: Vec::new(alloc),
        }
    }

    /// The entries so far, in order.
    pub fn log(&self) -> &[Added]
        ensures { result.now ≡ self.now }
    {
        self.log.as_slice()
    }
}

impl Logged for Tally {
    type Start = ();

    type Entry = Added;

    type Step = u64;

    type Outcome = u64;

    type Refusal = TallyRefusal;

    ghost use Rattle.std.specs.Prelude.{◌≡◌, ◌≤◌, ◌^◌, length, refl};
    ghost use Rattle.geo_lock.specs.Tally.{IsSummedFrom, tally_answer, wants_memory, is_refused};

    ghost start = { λ _. tt };

    ghost log = { λ t. t };

    ghost lawful = { λ _ log. IsSummedFrom 0 log };

    ghost entry = { λ seat step outcome. record { seat = seat; added = step; sum = outcome } };

    ghost seat_of = { λ e. e.seat };

    ghost answer = { λ _ log _ step. tally_answer log step };

    ghost is_no_memory = { wants_memory };

    ghost takes_no_memory = { λ _ log _ step. is_refused log step };

    ghost seat_is = { λ _ _ _. refl };

    fn apply_as(&mut self, seat: u32, step: u64) -> Result<u64, TallyRefusal> {
        let Some(sum) = self.sum.checked_add(step) else {
            return Err(TallyRefusal::Full);
        };
        if self.log.len() >= LOG_ROOM {
            return Err(TallyRefusal::Full);
        }
        let added = Added {
            seat,
            added: step,
            sum,
        };
        match self.log.push(added) {
            Ok(()) => {
                self.sum = sum;
                Ok(sum)
            }
            Err(_) => Err(TallyRefusal::NoMemory),
        }
    }
}
