//! The lock.
ghost use Rattle.std.specs.Prelude.{◌≡◌, ◌+◌, ◌-◌, ◌*◌, ◌<◌, ◌≤◌, ◌^◌, [], ◌∷◌, ◌++◌, true, false, Some, None, Ok, Err, IsOk, IfOk, IfErr, ℕ, length, map, slice_get};
ghost use mathlib.Core.List.{IsPrefix};
ghost use mathlib.Core.Option.{some};
ghost use lib.ListN.{get_elem?};
ghost use Rattle.geo_lock.specs.declared.claim.Claim.{Claim};
ghost use Rattle.geo_lock.specs.Logged.{Grows};
ghost use Rattle.geo_lock.specs.View.{in_turn, out_of_turn, with_claims};
ghost use Rattle.geo_lock.specs.Turns.{Found};
ghost use Rattle.geo_lock.specs.Pass.{PassView, IsSamePass, IsGood, claim_of};
ghost use Rattle.geo_lock.specs.Yard.{first_pass, IsPassOf, Makes, IsWhole, IsEnd};

use crate::logged::Logged;
use crate::pass::Pass;
use crate::pass_list::PassList;
use crate::turns::{Another, Ended, GiveTurn, TakeTurn, Turns};
use crate::view::View;
use atomic_table::{Refused, Seat, Table};
use std::alloc::{AllocFailed, Global};
use std::hint;
use std::marker::Model;
use std::snapshot::Snapshot;
use std::sync::Wait;
use std::sync::atomic::AtomicU64;
use std::sync::atomic::Ordering::SeqCst;

// The word is twice the length of the log, and one more while a pass has the turn. A thread that waits
// parks on its low half.
const LOW_HALF: u64 = 1 << 32;

// How often a thread looks at the word before it parks: as long as a few steps take.
const LOOKS: u32 = 1000;

/// A state that threads share, with one turn at a time.
///
/// Contracts see which yard it is, and the start of the state that it was made with.
#[derive(Drop)]
pub struct Yard<L: Logged> {
    table: Table<Option<L>, View<L::Start, L::Entry>, Snapshot<L>, Turns<L>, Global>,
    // How many threads may be parked. No rule speaks of it: where it is 0 nobody needs to be woken.
    parked: AtomicU64,
}

/// There was no memory for a yard. The state comes back as it was.
#[derive(Drop)]
pub struct CreateFault<L> {
    pub state: L,
}

/// There was no memory to close the yard, and no pass was joined. [`Yard::close`] never answers it.
#[derive(Drop)]
pub struct CloseFault<L: Logged> {
    pub yard: Yard<L>,
    pub passes: PassList<L>,
}

impl<L: Logged> Model for Yard<L> {
    ghost use Rattle.std.specs.Prelude.{◌≡◌};
    ghost use Rattle.geo_lock.specs.Yard.{YardView};

    ghost Value = { YardView L.Start };

    ghost view = { λ y. record { yard = y.table.shared.table_id; start = L.start y.table.shared.key.value } };

    ghost invariant = { λ y. (y.table.shared.table_id.words ≡ 1) × (y.table.shared.table_id.slots ≡ 1) };
}

impl<L: Logged> Yard<L> {
    /// A yard over a state whose log is empty, and its pass 0. It answers `CreateFault` for want of
    /// memory alone.
    pub fn create<R: AllocGlobal>(rt: &R, state: L) -> Result<(Yard<L>, Pass<L>), CreateFault<L>>
        requires empty { L.log state ≡ [] }
        requires lawful { L.lawful (L.start state) (L.log state) }
        ensures start { IfOk result (λ r. r.0.start ≡ L.start state) }
        ensures pass { IfOk result (λ r. r.1 ≡ first_pass r.0) }
        ensures err { IfErr result (λ e. e.state ≡ state) }
    {
        let alloc = rt.alloc();
        let key = Snapshot::of(&state);
        let mut slots = Vec::new(alloc);
        if let Err(failed) = slots.push(Some(state)) {
            let AllocFailed { value } = failed;
            slots.destroy_empty();
            let Some(state) = value else { unreachable!() };
            return Err(CreateFault { state });
        }
        match Table::new(alloc, &[0], slots, &key) {
            Ok((table, seat)) => Ok((
                Yard {
                    table,
                    parked: AtomicU64::new(0),
                },
                Pass {
                    number: 0,
                    made: 1,
                    len: 0,
                    seat,
                },
            )),
            Err(Refused { mut slots }) => {
                let Some(value) = slots.pop() else {
                    unreachable!()
                };
                slots.destroy_empty();
                let Some(state) = value else { unreachable!() };
                Err(CreateFault { state })
            }
        }
    }

    /// Makes one more pass, by one load and without memory. The new pass has the count so far as
    /// its number, has seen what `pass` has seen, and has no entries.
    pub fn split(&self, pass: &mut Pass<L>) -> Pass<L>
        requires own { IsPassOf self.now pass.old }
        requires first { pass.old.number ≡ 0 }
        requires room { pass.old.made < 2 ^ 32 - 1 }
        ensures new { result ≡ record pass.old { number = pass.old.made; own = []; made = 0 } }
        ensures good { IsGood L.lawful L.seat_of result }
        ensures same { pass.new ≡ record pass.old { made = pass.old.made + 1 } }
    {
        let number = pass.made;
        let seat = self.table.shared.split_seat::<Another>(&mut pass.seat);
        pass.made += 1;
        Pass {
            number,
            made: 0,
            len: pass.len,
            seat,
        }
    }

    /// Whether the log has grown since the pass saw it, by one load. No clause tells anything of the answer.
    pub fn has_news(&self, pass: &Pass<L>) -> bool {
        self.table.shared.peek(0) / 2 != pass.len
    }

    // Takes the turn and the state, and tells the word as it was.
    fn enter<R: Wait>(
        &self,
        rt: &R,
        seat: &mut Seat<Option<L>, View<L::Start, L::Entry>>,
    ) -> (u64, L)
        requires own { seat.old.table_id ≡ self.now.yard }
        requires rests { (seat.old.me.1 ≡ []) × ((c : Claim L.Entry) × (get_elem? seat.old.me.0.claims 0 ≡ some c)) }
        ensures same { (seat.new.table_id ≡ seat.old.table_id) × (seat.new.id ≡ seat.old.id) }
        ensures found { Found L.start L.log L.lawful L.seat_of seat.old.me.0 result.0 result.1 }
        ensures turn { seat.new.me ≡ (in_turn seat.old.me.0 (L.log result.1), (0, None) ∷ []) }
    {
        let shared = &self.table.shared;
        let mut looks = 0;
        for _ in rt.forever() {
            let word = shared.peek(0);
            if word % 2 == 1 {
                if looks < LOOKS {
                    looks += 1;
                    hint::spin_loop();
                } else {
                    looks = 0;
                    self.park(rt, word);
                }
            } else if shared.compare_exchange::<TakeTurn<L>>(seat, 0, word, word + 1) == word {
                let Some(state) = shared.exchange(seat, 0, None) else {
                    unreachable!()
                };
                return (word, state);
            }
        }
        unreachable!()
    }

    // Parks for as long as the word is the same, or until it is woken. The count rises before the word is compared, and
    // `leave` reads it behind its store: either it wakes this thread, or this thread finds another word.
    fn park<R: Wait>(&self, rt: &R, word: u64) {
        self.parked.fetch_add(1, SeqCst);
        self.table.shared.park(rt, 0, (word % LOW_HALF) as u32);
        self.parked.fetch_sub(1, SeqCst);
    }

    // Puts the state back and gives the turn up.
    fn leave(&self, seat: &mut Seat<Option<L>, View<L::Start, L::Entry>>, state: L, word: u64)
        requires own { seat.old.table_id ≡ self.now.yard }
        requires turn { (seat.old.me.0.turn ≡ true) × (seat.old.me.1 ≡ (0, None) ∷ []) }
        requires start { seat.old.me.0.start ≡ Some (L.start state) }
        requires grows { (c : Claim L.Entry) × (seat.old.me.0.claims ≡ c ∷ [])
            × Grows L.seat_of c.number seat.old.me.0.seen (L.log state) }
        requires law { L.lawful (L.start state) (L.log state) × (length (L.log state) ≤ 2 ^ 62) }
        requires word { word ≡ 2 * length (L.log state) }
        ensures same { (seat.new.table_id ≡ seat.old.table_id) × (seat.new.id ≡ seat.old.id) }
        ensures turn { seat.new.me ≡ (out_of_turn L.seat_of seat.old.me.0 (L.log state), []) }
        ensures seen { word ≡ 2 * length seat.new.me.0.seen }
    {
        let shared = &self.table.shared;
        let left = shared.exchange(seat, 0, Some(state));
        let None = left else { unreachable!() };
        shared.store::<GiveTurn<L>>(seat, 0, word);
        if self.parked.load(SeqCst) > 0 {
            shared.wake_one(0);
        }
    }

    /// Makes one step under the lock, as the seat of the pass. It waits for the turn.
    ///
    /// Afterwards the pass has seen the log of that moment. On Ok its entry ends that log; a
    /// refusal is the state's, at that log, and adds nothing.
    pub fn apply<R: Wait>(
        &self,
        rt: &R,
        pass: &mut Pass<L>,
        step: L::Step,
    ) -> Result<L::Outcome, L::Refusal>
        requires { IsPassOf self.now pass.old }
        ensures same { IsSamePass pass.old pass.new }
        ensures longer { IsPrefix pass.old.seen pass.new.seen }
        ensures good { IsGood L.lawful L.seat_of pass.new }
        ensures made { IfOk result (λ o. Makes pass.old pass.new (L.entry pass.old.number step o)
            (λ before. Ok o ≡ L.answer self.now.start before pass.old.number step)) }

        // A refusal is the state's at what the pass has seen, and none for want of memory where
        // the state's test says so.
        ensures unmade { IfErr result (λ _. pass.new.own ≡ pass.old.own) }
        ensures refused { IfErr result (λ e. L.is_no_memory e ≡ false
            → Err e ≡ L.answer self.now.start pass.new.seen pass.old.number step) }
        ensures sure { IfErr result (λ e.
            L.takes_no_memory self.now.start pass.new.seen pass.old.number step ≡ true
            → L.is_no_memory e ≡ false) }
    {
        let (word, mut state) = self.enter(rt, &mut pass.seat);
        let result = state.apply_as(pass.number, step);
        let word = if result.is_ok() { word + 2 } else { word };
        self.leave(&mut pass.seat, state, word);
        pass.len = word / 2;
        result
    }

    // Joins the passes to the first one.
    fn join_all(&self, seat: &mut Seat<Option<L>, View<L::Start, L::Entry>>, others: Vec<Pass<L>>)
        requires own { seat.old.table_id ≡ self.now.yard }
        requires of_yard { (k : ℕ) (p : PassView L.Start L.Entry) → slice_get others.items k ≡ Some p
            → p.yard ≡ self.now.yard }
        requires first { (seat.old.me.1 ≡ [])
            × ((c : Claim L.Entry) × (get_elem? seat.old.me.0.claims 0 ≡ some c) × (c.number ≡ 0)) }
        ensures same { (seat.new.table_id ≡ seat.old.table_id) × (seat.new.id ≡ seat.old.id) }
        ensures joined { seat.new.me
            ≡ (with_claims seat.old.me.0 (seat.old.me.0.claims ++ map claim_of others.items), []) }
    {
        for pass in others {
            let other = pass.into_seat();
            self.table.shared.join_seat::<Ended>(seat, other);
        }
    }

    // The state, once all passes are joined.
    fn close_all(self, mut passes: Vec<Pass<L>>) -> L
        requires { IsWhole self passes.items }
        ensures { IsEnd L.start L.log L.lawful L.seat_of self passes.items result }
    {
        let mut seat = passes.remove(0).into_seat();
        self.join_all(&mut seat, passes);
        let Yard { table, parked: _ } = self;
        let mut closed = table.close_with(seat);
        let left = closed.take(0);
        closed.free();
        let Some(state) = left else { unreachable!() };
        state
    }

    /// Ends the yard and gives the state back, with the whole log.
    ///
    /// The passes are all that were made, in order of their numbers. Each is good in the log, and
    /// each entry of the log has the number of one of them. It takes no memory, so it is never
    /// refused: `CloseFault` stands for an ending that would take some.
    pub fn close<R: AllocGlobal>(self, rt: &R, passes: PassList<L>) -> Result<L, CloseFault<L>>
        requires { IsWhole self passes.items }
        ensures ok { IfOk result (λ x. IsEnd L.start L.log L.lawful L.seat_of self passes.items x) }
        ensures err { IfErr result (λ e. (e.yard ≡ self) × (e.passes ≡ passes)) }
        ensures sure { IsOk result }
    {
        // The joins are loads, and the table only gives memory back, so nothing can be refused here.
        Ok(self.close_all(passes.into_passes()))
    }
}
