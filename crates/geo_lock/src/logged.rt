//! A state with steps, outcomes and a log.
ghost use Rattle.std.specs.Prelude.{◌≡◌, ℕ, ◌≤◌, ◌^◌, List, [], ◌∷◌, ◌++◌, length, Bool, true, false, Result, IfOk, IfErr};
ghost use Rattle.geo_lock.specs.Logged.{lacks_memory};

/// A state that makes steps, answers each with an outcome, and keeps a log of them.
///
/// Beside its log a state has a start, what it began with, which no step changes. Want of memory aside,
/// what a step is answered is a function of the start, the log, the seat that makes it and the step. A
/// log never has more than 2^62 entries.
pub trait Logged {
    /// What a state began with.
    type Start;

    /// One entry of the log: a seat, a step and its outcome.
    type Entry;

    type Step;

    type Outcome;

    type Refusal;

    ghost start: { Self → Self.Start };

    ghost log: { Self → List Self.Entry };

    // May a state with this start have this log?
    ghost lawful: { Self.Start → List Self.Entry → Type 0 };

    // The entry of a seat, a step and its outcome.
    ghost entry: { ℕ → Self.Step → Self.Outcome → Self.Entry };

    ghost seat_of: { Self.Entry → ℕ };

    // What a seat's step is answered at a start and a log, want of memory aside.
    ghost answer: { Self.Start → List Self.Entry → ℕ → Self.Step → Result Self.Outcome Self.Refusal };

    ghost is_no_memory: { Self.Refusal → Bool };

    // A seat's step that takes no memory at a start and a log.
    ghost takes_no_memory: { Self.Start → List Self.Entry → ℕ → Self.Step → Bool };

    /// Makes one step for a seat. On Ok the log gained the entry of this seat, step and outcome; a
    /// refusal changes nothing.
    fn apply_as(&mut self, seat: u32, step: Self::Step) -> Result<Self::Outcome, Self::Refusal>
        requires lawful { lawful (start self.old) (log self.old) }
        requires small { length (log self.old) ≤ 2 ^ 62 }
        ensures start { start self.new ≡ start self.old }
        ensures lawful { lawful (start self.new) (log self.new) }
        ensures small { length (log self.new) ≤ 2 ^ 62 }
        ensures ok { IfOk result (λ o. log self.new ≡ log self.old ++ entry seat step o ∷ []) }
        ensures err { IfErr result (λ _. self.new ≡ self.old) }

        // Only the answer for want of memory is free, and some steps never get it.
        ensures answer { lacks_memory is_no_memory result ≡ false
            → result ≡ answer (start self.old) (log self.old) seat step }
        ensures sure { takes_no_memory (start self.old) (log self.old) seat step ≡ true
            → lacks_memory is_no_memory result ≡ false };

    ghost seat_is: { (seat : ℕ) (step : Self.Step) (outcome : Self.Outcome)
        → seat_of (entry seat step outcome) ≡ seat };
}
