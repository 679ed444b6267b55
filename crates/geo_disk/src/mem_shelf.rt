//! A shelf in memory.
ghost use Rattle.std.specs.Prelude.{◌≡◌, ◌≢◌, ℕ, ◌+◌, ◌*◌, ◌≤◌, ◌↔◌, [], ◌∷◌, ◌++◌, List, Some, None, true, Contains, IfErr, IfSome, IsErr, IsErrOf, IsTrue, MatchOption, OnErr, OnOk, ◌<◌, is_err, is_some, length, slice_set};
ghost use Rattle.std.specs.Bool.{OnTrue};
ghost use Rattle.std.specs.Option.{option_copied};
ghost use Rattle.std.specs.List.{position};
ghost use Rattle.geo_base.specs.Faults.{HasCause, Rose};
ghost use Rattle.geo_base.specs.Sectors.{joined_sectors, IsSectorSize};
ghost use Rattle.geo_disk.specs.Counts.{counted_if, counted_on};
ghost use Rattle.geo_disk.specs.Memory.{AreWhole, memory_view};
ghost use Rattle.geo_disk.specs.Names.{is_named, names_without};
ghost use Rattle.geo_disk.specs.Lending.{faults_of, give_faults_of, returned_asked, returned_sectors, take_faults_of, tally_of};
ghost use Rattle.geo_disk.specs.Shelf.{CountsCall, GivesToShelf, IfTaken, IsBrought, IsGivenTo, IsOfSize, TakesFromShelf, UnlessTaken, answer_of, is_failure, is_take_failed, lent_by, lent_without};
ghost use Rattle.geo_disk.specs.MemShelf.{AreSameCalls, disk_of_slot, emptied_slot, images_of, kept_slot, lent_has_nothing, shelf_called, shelf_view, slot_at, slot_of, with_slot};

use crate::calls::DiskCall;
use crate::counts::one_more;
use crate::disk::Disk;
use crate::lending::{Lending, is_same};
use crate::mem_disk::MemDisk;
use crate::notes::Notes;
use crate::shelf::{GiveFault, Shelf, ShelfCall, ShelfFault, TakeAnswer, Taken, is_disk_size};
use geo_base::{Block, Calls, Name, NoMemory};
use std::alloc::Global;
use std::marker::Model;
use std::mem;

/// The place of a name: the bytes under it, which are none while it is lent, and what its disk is to do.
#[derive(Drop)]
struct Slot {
    name: Name,
    bytes: Block,
    fails: Calls,
    calls: u64,
    part: u64,
}

/// A shelf in memory, of which chosen calls fail. A name that was put keeps its place.
#[derive(Drop)]
pub struct MemShelf {
    alloc: Global,
    slots: Vec<Slot>,
    lending: Lending,
    fails: Calls,
    calls: u64,
    faults: u64,
    asked: Notes<ShelfCall>,
}

impl Model for MemShelf {
    ghost use Rattle.geo_disk.specs.MemShelf.{HasSlots, Store};

    ghost Value = { Store };

    ghost view = { λ s. record {
      slots = s.slots.items;
      loans = s.lending;
      fails = s.fails;
      calls = s.calls;
      faults = s.faults;
      asked = s.asked.items;
    } };

    ghost invariant = { λ s. HasSlots s.lending.lent s.slots.items };
}

/// Where a name has its place.
fn place_of(slots: &[Slot], name: &Name) -> Option<usize>
    ensures { result ≡ position (is_named (λ slot. slot.name) name.now) slots.now }
{
    slots.iter().position(|slot| is_same(name, &slot.name))
}

/// A place without a disk.
fn emptied(alloc: Global, name: Name) -> Slot
    ensures { result ≡ emptied_slot name }
{
    Slot {
        name,
        bytes: Block::from_vec(Vec::new(alloc)),
        fails: Calls::none(alloc),
        calls: 0,
        part: 0,
    }
}

/// Takes the disk out of the place of a name, which stays.
fn lend_out(
    alloc: Global,
    slots: &mut Vec<Slot>,
    at: usize,
    sector: u32,
    faults: u64,
    asked: Notes<DiskCall>,
) -> MemDisk
    requires inside { at < length slots.old.items }
    requires whole { AreWhole sector (slot_at slots.old.items at).bytes }
    ensures disk { result ≡ disk_of_slot sector faults asked.items (slot_at slots.old.items at) }
    ensures slots { slots.new.items ≡ slice_set slots.old.items at (emptied_slot (slot_at slots.old.items at).name) }
{
    let name = slots[at].name;
    let slot = mem::replace(&mut slots[at], emptied(alloc, name));
    MemDisk::resumed(
        slot.bytes, sector, slot.fails, slot.calls, faults, slot.part, asked,
    )
}

/// Puts a disk into the place of its name.
fn keep(slots: &mut Vec<Slot>, name: &Name, disk: MemDisk)
    requires { is_some (slot_of slots.old.items name.now) ≡ true }
    ensures here { slot_of slots.new.items name.now ≡ Some (kept_slot name.now disk) }
    ensures others { (other : List ℕ) → other ≢ name.now → slot_of slots.new.items other
        ≡ slot_of slots.old.items other }
{
    let at = place_of(slots.as_slice(), name).unwrap();
    let (bytes, fails, calls, part) = disk.into_parts();
    slots[at] = Slot {
        name: *name,
        bytes,
        fails,
        calls,
        part,
    };
}

impl MemShelf {
    /// A shelf without names, of which no call is to fail.
    pub fn new(alloc: Global) -> MemShelf
        ensures { result ≡ record {
          slots = [];
          loans = record { lent = []; counts = []; returned = [] };
          fails = [];
          calls = 0;
          faults = 0;
          asked = [];
        } }
    {
        MemShelf {
            alloc,
            slots: Vec::new(alloc),
            lending: Lending::new(alloc),
            fails: Calls::none(alloc),
            calls: 0,
            faults: 0,
            asked: Notes::none(),
        }
    }

    /// Puts bytes under a new name. The calls of its disk of the numbers in `fails` are to fail, counted from 1.
    pub fn put(&mut self, name: &Name, bytes: Block, fails: Calls) -> Result<(), NoMemory>
        requires new { images_of self.old name.now ≡ None }
        requires not_lent { Contains self.old.loans.lent name.now → ⊥ }
        ensures ok { OnOk result (self.new ≡ with_slot self.old
            (record { name = name.now; bytes = bytes; fails = fails; calls = 0; part = 0 })) }
        ensures put { OnOk result (images_of self.new name.now ≡ Some bytes) }
        ensures others { OnOk result ((other : List ℕ) → other ≢ name.now → images_of self.new other
            ≡ images_of self.old other) }
        ensures err { OnErr result (self.new ≡ self.old) }
    {
        self.slots.push(Slot {
            name: *name,
            bytes,
            fails,
            calls: 0,
            part: 0,
        })?;
        Ok(())
    }

    /// The bytes under a name: None where it isn't on the shelf, or is lent.
    pub fn bytes_of(&self, name: &Name) -> Option<&[u8]>
        ensures { option_copied result ≡ images_of self.now name.now }
    {
        let lent = self.lending.has(name);
        if lent {
            return None;
        }
        match place_of(self.slots.as_slice(), name) {
            Some(at) => Some(self.slots[at].bytes.bytes()),
            None => None,
        }
    }

    /// From now on the calls of the shelf of these numbers fail. `take` and `give` are counted together, from 1.
    pub fn fail_calls(&mut self, fails: Calls)
        ensures { self.new ≡ record self.old { fails = fails } }
    {
        self.fails = fails;
    }

    /// Counts a call, and says whether it is to fail.
    fn next_fails(&mut self) -> bool
        ensures fails { IsTrue result ↔ Contains self.old.fails (counted_on self.old.calls) }
        ensures called { self.new ≡ shelf_called result self.old }
        ensures later { self.old.faults ≤ self.new.faults }
        ensures rose { OnTrue result (Rose self.old.faults self.new.faults) }
    {
        self.calls = one_more(self.calls);
        let fails = self.fails.has(self.calls);
        if fails {
            self.faults = one_more(self.faults);
        }
        fails
    }

    /// Notes a call.
    fn note(&mut self, call: &ShelfCall)
        ensures { self.new ≡ record self.old { asked = self.old.asked ++ call.now ∷ [] } }
    {
        self.asked = self.asked.and(call);
    }

    /// Counts a take that fails. Where there is no memory for the count of its name, that is the answer.
    fn fail_take(&mut self, name: &Name) -> ShelfFault
        ensures rest { self.new ≡ record self.old { loans = self.new.loans } }
        ensures lent { self.new.loans.lent ≡ self.old.loans.lent }
        ensures returned { self.new.loans.returned ≡ self.old.loans.returned }
        ensures disks { (other : List ℕ) → faults_of self.new.loans other ≡ faults_of self.old.loans other }
        ensures takes { CountsCall (is_failure result) name.now (take_faults_of self.old.loans)
            (take_faults_of self.new.loans) }
        ensures gives { (other : List ℕ) → give_faults_of self.new.loans other ≡ give_faults_of self.old.loans other }
    {
        match self.lending.make_room(name) {
            Ok(()) => {
                self.lending.count_failed_take(name);
                ShelfFault::Failed
            }
            Err(_) => ShelfFault::NoMemory,
        }
    }

    /// Counts a give that fails.
    fn fail_give(&mut self, name: &Name)
        requires { Contains self.old.loans.lent name.now }
        ensures rest { self.new ≡ record self.old { loans = self.new.loans } }
        ensures lent { self.new.loans.lent ≡ self.old.loans.lent }
        ensures returned { self.new.loans.returned ≡ self.old.loans.returned }
        ensures disks { (other : List ℕ) → faults_of self.new.loans other ≡ faults_of self.old.loans other }
        ensures takes { (other : List ℕ) → take_faults_of self.new.loans other ≡ take_faults_of self.old.loans other }
        ensures gives { CountsCall true name.now (give_faults_of self.old.loans) (give_faults_of self.new.loans) }
    {
        self.lending.count_failed_give(name);
    }

    /// Takes a disk, where the call doesn't fail.
    fn take_now(&mut self, name: &Name, sector: u32) -> Result<Taken<MemDisk>, ShelfFault>
        requires { IsSectorSize sector }
        ensures found { TakesFromShelf memory_view name.now sector result (Some (images_of self.old)) (Some
            (images_of self.new)) }
        ensures not_lent { IfTaken result (λ d. Contains self.old.loans.lent name.now → ⊥) }
        ensures size { IfTaken result (λ d. IsOfSize sector d.sector (length d.sectors)) }
        ensures brought { IfTaken result (λ d. d.faults ≡ faults_of self.old.loans name.now) }
        ensures asked { IfTaken result (λ d. d.asked ≡ returned_asked self.old.loans name.now) }
        ensures lent { self.new.loans.lent ≡ lent_by result name.now self.old.loans.lent }
        ensures counts { (other : List ℕ) → tally_of self.new.loans other ≡ tally_of self.old.loans other }
        ensures returned { self.new.loans.returned ≡ self.old.loans.returned }
        ensures not_failed { IsErrOf result ShelfFault.Failed → ⊥ }
        ensures disk { IfTaken result (λ d. IfSome (slot_of self.old.slots name.now) (λ slot. d
            ≡ disk_of_slot sector (faults_of self.old.loans name.now) (returned_asked self.old.loans name.now) slot)) }
        ensures emptied { IfTaken result (λ d. slot_of self.new.slots name.now ≡ Some (emptied_slot name.now)) }
        ensures others { (other : List ℕ) → other ≢ name.now → slot_of self.new.slots other
            ≡ slot_of self.old.slots other }
        ensures slots { UnlessTaken result (self.new.slots ≡ self.old.slots) }
        ensures same { AreSameCalls self.old self.new }
    {
        if self.lending.has(name) {
            return Ok(Taken::Missing);
        }
        let Some(at) = place_of(self.slots.as_slice(), name) else {
            return Ok(Taken::Missing);
        };
        if !is_disk_size(self.slots[at].bytes.len() as u64, sector) {
            return Ok(Taken::BadSize);
        }
        let faults = self.lending.faults_of(name);
        let asked = self.lending.asked_of(name);
        let Ok(()) = self.lending.lend(name) else {
            return Err(ShelfFault::NoMemory);
        };
        Ok(Taken::Disk(lend_out(self.alloc, &mut self.slots, at, sector, faults, asked)))
    }

    /// Notes what is known of a disk that is offered back, whether the call fails or not.
    fn offer(&mut self, name: &Name, disk: &MemDisk)
        requires { Contains self.old.loans.lent name.now }
        ensures rest { self.new ≡ record self.old { loans = self.new.loans } }
        ensures lent { self.new.loans.lent ≡ self.old.loans.lent }
        ensures counts { IsBrought name.now disk.now.faults (faults_of self.old.loans) (faults_of self.new.loans) }
        ensures takes { (other : List ℕ) → take_faults_of self.new.loans other ≡ take_faults_of self.old.loans other }
        ensures gives { (other : List ℕ) → give_faults_of self.new.loans other ≡ give_faults_of self.old.loans other }
        ensures asked { IsBrought name.now disk.now.asked (returned_asked self.old.loans)
            (returned_asked self.new.loans) }
        ensures sectors { IsBrought name.now (length disk.now.sectors) (returned_sectors self.old.loans)
            (returned_sectors self.new.loans) }
    {
        self.lending
            .offer(name, disk.faults(), disk.asked(), disk.sectors());
    }

    /// Takes a disk back, where the call doesn't fail.
    fn give_now(&mut self, name: &Name, disk: MemDisk)
        requires { Contains self.old.loans.lent name.now }
        ensures given { IsGivenTo name.now (Some disk.sectors) (images_of self.old) (images_of self.new) }
        ensures lent { self.new.loans.lent ≡ names_without name.now self.old.loans.lent }
        ensures counts { (other : List ℕ) → tally_of self.new.loans other ≡ tally_of self.old.loans other }
        ensures returned { self.new.loans.returned ≡ self.old.loans.returned }
        ensures kept { slot_of self.new.slots name.now ≡ Some (kept_slot name.now disk) }
        ensures others { (other : List ℕ) → other ≢ name.now → slot_of self.new.slots other
            ≡ slot_of self.old.slots other }
        ensures same { AreSameCalls self.old self.new }
    {
        self.lending.give_back(name);
        keep(&mut self.slots, name, disk);
    }
}

impl Shelf for MemShelf {
    type D = MemDisk;

    ghost view = { shelf_view };

    fn take(&mut self, name: &Name, sector: u32) -> Result<Taken<MemDisk>, ShelfFault>
        requires { IsSectorSize sector }
        ensures found { TakesFromShelf memory_view name.now sector result (Some (images_of self.old)) (Some
            (images_of self.new)) }
        ensures not_lent { IfTaken result (λ d. Contains self.old.loans.lent name.now → ⊥) }
        ensures size { IfTaken result (λ d. IsOfSize sector d.sector (length d.sectors)) }
        ensures brought { IfTaken result (λ d. d.faults ≡ faults_of self.old.loans name.now) }
        ensures asked { IfTaken result (λ d. d.asked ≡ returned_asked self.old.loans name.now) }
        ensures lent { self.new.loans.lent ≡ lent_by result name.now self.old.loans.lent }
        ensures counts { (other : List ℕ) → faults_of self.new.loans other ≡ faults_of self.old.loans other }
        ensures returned { self.new.loans.returned ≡ self.old.loans.returned }
        ensures later { self.old.faults ≤ self.new.faults }
        ensures failed { IsErrOf result ShelfFault.Failed → Rose self.old.faults self.new.faults }
        ensures no_fault { OnOk result (self.new.faults ≡ self.old.faults) }
        ensures takes { CountsCall (is_take_failed result) name.now (take_faults_of self.old.loans)
            (take_faults_of self.new.loans) }
        ensures gives { (other : List ℕ) → give_faults_of self.new.loans other ≡ give_faults_of self.old.loans other }

        // It fails exactly where the call's number is in the list, unless there is no memory for the count of the
        // name; the disk goes on as it came back, and the other places stay.
        ensures fails { IsErrOf result ShelfFault.Failed → Contains self.old.fails (counted_on self.old.calls) }
        ensures must_fail { Contains self.old.fails (counted_on self.old.calls) → IsErr result }
        ensures emptied { IfTaken result (λ d. slot_of self.new.slots name.now ≡ Some (emptied_slot name.now)) }
        ensures others { (other : List ℕ) → other ≢ name.now → slot_of self.new.slots other
            ≡ slot_of self.old.slots other }
        ensures slots { UnlessTaken result (self.new.slots ≡ self.old.slots) }
        ensures disk { IfTaken result (λ d. IfSome (slot_of self.old.slots name.now) (λ slot. d
            ≡ disk_of_slot sector (faults_of self.old.loans name.now) (returned_asked self.old.loans name.now) slot)) }
        ensures calls { (self.new.fails ≡ self.old.fails) × (self.new.calls ≡ counted_on self.old.calls) }
        ensures called { self.new.asked ≡ self.old.asked ++ ShelfCall.Take name.now (answer_of result) ∷ [] }
    {
        let answer = if self.next_fails() {
            Err(self.fail_take(name))
        } else {
            self.take_now(name, sector)
        };
        self.note(&ShelfCall::Take(*name, TakeAnswer::of(&answer)));
        answer
    }

    fn give(&mut self, name: &Name, disk: MemDisk) -> Result<(), GiveFault<MemDisk>>
        requires { Contains self.old.loans.lent name.now }
        ensures given { GivesToShelf (Some disk.sectors) name.now result (Some (images_of self.old)) (Some
            (images_of self.new)) }
        ensures lent { self.new.loans.lent ≡ lent_without result name.now self.old.loans.lent }
        ensures counts { IsBrought name.now disk.faults (faults_of self.old.loans) (faults_of self.new.loans) }
        ensures asked { IsBrought name.now disk.asked (returned_asked self.old.loans) (returned_asked self.new.loans) }
        ensures sectors { IsBrought name.now (length disk.sectors) (returned_sectors self.old.loans)
            (returned_sectors self.new.loans) }
        ensures name { IfErr result (λ e. e.name ≡ name.now) }
        ensures disk { IfErr result (λ e. e.disk ≡ disk) }
        ensures cause { HasCause self.old.faults self.new.faults result }
        ensures no_fault { OnOk result (self.new.faults ≡ self.old.faults) }
        ensures takes { (other : List ℕ) → take_faults_of self.new.loans other ≡ take_faults_of self.old.loans other }
        ensures gives { CountsCall (is_err result) name.now (give_faults_of self.old.loans)
            (give_faults_of self.new.loans) }

        // It fails exactly where the call's number is in the list; the name has the disk as it came back, and the other
        // places stay.
        ensures others { (other : List ℕ) → other ≢ name.now → slot_of self.new.slots other
            ≡ slot_of self.old.slots other }
        ensures slots { OnErr result (self.new.slots ≡ self.old.slots) }
        ensures fails { IsErr result ↔ Contains self.old.fails (counted_on self.old.calls) }
        ensures kept { OnOk result (slot_of self.new.slots name.now ≡ Some (kept_slot name.now disk)) }
        ensures calls { (self.new.fails ≡ self.old.fails) × (self.new.calls ≡ counted_on self.old.calls) }
        ensures called { self.new.asked ≡ self.old.asked ++ ShelfCall.Give name.now ∷ [] }
    {
        self.note(&ShelfCall::Give(*name));
        self.offer(name, &disk);
        if self.next_fails() {
            self.fail_give(name);
            return Err(GiveFault { name: *name, disk });
        }
        self.give_now(name, disk);
        Ok(())
    }

    ghost lent_is_missing = { lent_has_nothing };
}
