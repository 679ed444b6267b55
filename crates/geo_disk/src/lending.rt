//! Which names of a shelf are lent, how often the disks of each name failed, and with what they were offered back.
ghost use Rattle.std.specs.Prelude.{◌≡◌, ◌≢◌, ℕ, ◌↔◌, [], ◌∷◌, ◌++◌, List, true, Contains, IsTrue, OnErr, OnOk, bytes_eq, is_some};
ghost use Rattle.std.specs.List.{position};
ghost use Rattle.geo_disk.specs.Names.{is_among, is_named, names_without};
ghost use Rattle.geo_disk.specs.Lending.{HasCount, asked_in, count_of, faults_of, give_failed, returned_asked, returned_sectors, take_failed, tally_in, tally_of, with_faults};

use crate::calls::DiskCall;
use crate::counts::one_more;
use crate::notes::{Notes, picked};
use geo_base::{Name, NoMemory};
use std::alloc::Global;
use std::marker::Model;

/// How often the disks of a name failed, and how often a take and a give of it did.
#[derive(Clone, Copy)]
struct Tally {
    faults: u64,
    take_faults: u64,
    give_faults: u64,
}

/// The counts of a name.
#[derive(Drop)]
struct Count {
    name: Name,
    tally: Tally,
}

/// A disk that was offered back: its name, what it had been asked, and how many sectors it had.
#[derive(Drop)]
struct Returned {
    name: Name,
    asked: Notes<DiskCall>,
    sectors: u64,
}

/// The names of a shelf that are lent, the counts of each name, and, for clauses alone, with what its disks were
/// offered back.
/// A shelf keeps it beside its disks.
#[derive(Drop)]
pub struct Lending {
    lent: Vec<Name>,
    counts: Vec<Count>,
    returned: Notes<Returned>,
}

impl Model for Lending {
    ghost use Rattle.geo_disk.specs.Lending.{HasCounts, Loans};

    ghost Value = { Loans };

    ghost view = { λ l. record { lent = l.lent.items; counts = l.counts.items; returned = l.returned.items } };

    ghost invariant = { λ l. HasCounts l.lent.items l.counts.items };
}

/// Whether two names are the same bytes.
pub(crate) fn is_same(left: &Name, right: &Name) -> bool
    ensures { result ≡ bytes_eq left.now right.now }
{
    left.bytes() == right.bytes()
}

/// Where the count of a name stands.
fn place_of(counts: &[Count], name: &Name) -> Option<usize>
    ensures { result ≡ position (is_named (λ c. c.name) name.now) counts.now }
{
    counts.iter().position(|count| is_same(name, &count.name))
}

/// Sees that a name has counts, which are 0 where it had none.
fn ensure_count(counts: &mut Vec<Count>, name: &Name) -> Result<(), NoMemory>
    ensures same { (other : List ℕ) → tally_in counts.new.items other ≡ tally_in counts.old.items other }
    ensures kept { (other : List ℕ) → is_some (count_of counts.old.items other) ≡ true
        → is_some (count_of counts.new.items other) ≡ true }
    ensures has { OnOk result (is_some (count_of counts.new.items name.now) ≡ true) }
{
    match place_of(counts.as_slice(), name) {
        Some(_) => Ok(()),
        None => {
            counts.push(Count {
                name: *name,
                tally: Tally {
                    faults: 0,
                    take_faults: 0,
                    give_faults: 0,
                },
            })?;
            Ok(())
        }
    }
}

/// Sets the counts of a name.
fn set_count(counts: &mut Vec<Count>, name: &Name, tally: Tally)
    requires { is_some (count_of counts.old.items name.now) ≡ true }
    ensures now { tally_in counts.new.items name.now ≡ tally }
    ensures others { (other : List ℕ) → other ≢ name.now → tally_in counts.new.items other
        ≡ tally_in counts.old.items other }
    ensures kept { (other : List ℕ) → is_some (count_of counts.old.items other) ≡ true
        → is_some (count_of counts.new.items other) ≡ true }
{
    let at = place_of(counts.as_slice(), name).unwrap();
    counts[at] = Count { name: *name, tally };
}

/// What the disk of a name had been asked when it was last offered back.
fn asked_before(returned: &Notes<Returned>, name: &Name) -> Notes<DiskCall>
    ensures { result.items ≡ asked_in returned.now.items name.now }
{
    picked(returned, name)
}

/// One more disk was offered back.
fn returned_by(returned: &Notes<Returned>, last: &Returned) -> Notes<Returned>
    ensures { result.items ≡ last.now ∷ returned.now.items }
{
    picked(returned, last)
}

impl Lending {
    /// Nothing is lent, each count is 0, and no disk was offered back.
    pub fn new(alloc: Global) -> Lending
        ensures { result ≡ record { lent = []; counts = []; returned = [] } }
    {
        Lending {
            lent: Vec::new(alloc),
            counts: Vec::new(alloc),
            returned: Notes::none(),
        }
    }

    /// Whether the name is lent.
    pub fn has(&self, name: &Name) -> bool
        ensures among { result ≡ is_among name.now self.now.lent }
        ensures lent { IsTrue result ↔ Contains self.now.lent name.now }
    {
        self.lent.iter().any(|lent| is_same(name, lent))
    }

    /// The counts of a name.
    fn tally_of(&self, name: &Name) -> Tally
        ensures { result ≡ tally_of self.now name.now }
    {
        match place_of(self.counts.as_slice(), name) {
            Some(at) => self.counts[at].tally,
            None => Tally {
                faults: 0,
                take_faults: 0,
                give_faults: 0,
            },
        }
    }

    /// The count of faults of the disks of a name.
    pub fn faults_of(&self, name: &Name) -> u64
        ensures { result ≡ faults_of self.now name.now }
    {
        self.tally_of(name).faults
    }

    /// What the disk of a name had been asked when it was last offered back.
    pub fn asked_of(&self, name: &Name) -> Notes<DiskCall>
        ensures { result.items ≡ returned_asked self.now name.now }
    {
        asked_before(&self.returned, name)
    }

    /// Makes room for the counts of a name. No count changes.
    pub fn make_room(&mut self, name: &Name) -> Result<(), NoMemory>
        ensures lent { self.new.lent ≡ self.old.lent }
        ensures returned { self.new.returned ≡ self.old.returned }
        ensures tallies { (other : List ℕ) → tally_of self.new other ≡ tally_of self.old other }
        ensures room { OnOk result (HasCount self.new name.now) }
    {
        ensure_count(&mut self.counts, name)
    }

    /// Counts a take of a name that failed. It takes no memory.
    pub fn count_failed_take(&mut self, name: &Name)
        requires { HasCount self.old name.now }
        ensures lent { self.new.lent ≡ self.old.lent }
        ensures returned { self.new.returned ≡ self.old.returned }
        ensures own { tally_of self.new name.now ≡ take_failed (tally_of self.old name.now) }
        ensures others { (other : List ℕ) → other ≢ name.now → tally_of self.new other ≡ tally_of self.old other }
    {
        let mut tally = self.tally_of(name);
        tally.take_faults = one_more(tally.take_faults);
        set_count(&mut self.counts, name, tally);
    }

    /// Counts a give of a name that failed. It takes no memory.
    pub fn count_failed_give(&mut self, name: &Name)
        requires { Contains self.old.lent name.now }
        ensures lent { self.new.lent ≡ self.old.lent }
        ensures returned { self.new.returned ≡ self.old.returned }
        ensures own { tally_of self.new name.now ≡ give_failed (tally_of self.old name.now) }
        ensures others { (other : List ℕ) → other ≢ name.now → tally_of self.new other ≡ tally_of self.old other }
    {
        let mut tally = self.tally_of(name);
        tally.give_faults = one_more(tally.give_faults);
        set_count(&mut self.counts, name, tally);
    }

    /// Lends a name. No count changes.
    pub fn lend(&mut self, name: &Name) -> Result<(), NoMemory>
        ensures ok { OnOk result (self.new.lent ≡ self.old.lent ++ name.now ∷ []) }
        ensures err { OnErr result (self.new.lent ≡ self.old.lent) }
        ensures returned { self.new.returned ≡ self.old.returned }
        ensures tallies { (other : List ℕ) → tally_of self.new other ≡ tally_of self.old other }
    {
        ensure_count(&mut self.counts, name)?;
        self.lent.push(*name)?;
        Ok(())
    }

    /// The disk of a name is offered back with this count of faults, after it was asked this, and with so many sectors:
    /// that is known from then on, whether the disk is taken back or not. It takes no memory.
    pub fn offer(&mut self, name: &Name, faults: u64, asked: Notes<DiskCall>, sectors: u64)
        requires { Contains self.old.lent name.now }
        ensures lent { self.new.lent ≡ self.old.lent }
        ensures own { tally_of self.new name.now ≡ with_faults faults (tally_of self.old name.now) }
        ensures others { (other : List ℕ) → other ≢ name.now → tally_of self.new other ≡ tally_of self.old other }
        ensures asked { returned_asked self.new name.now ≡ asked.items }
        ensures asked_others { (other : List ℕ) → other ≢ name.now
            → returned_asked self.new other ≡ returned_asked self.old other }
        ensures sectors { returned_sectors self.new name.now ≡ sectors }
        ensures sectors_others { (other : List ℕ) → other ≢ name.now
            → returned_sectors self.new other ≡ returned_sectors self.old other }
    {
        let mut tally = self.tally_of(name);
        tally.faults = faults;
        set_count(&mut self.counts, name, tally);
        let last = Returned {
            name: *name,
            asked,
            sectors,
        };
        self.returned = returned_by(&self.returned, &last);
    }

    /// A name is lent no more. It takes no memory.
    pub fn give_back(&mut self, name: &Name)
        ensures lent { self.new.lent ≡ names_without name.now self.old.lent }
        ensures returned { self.new.returned ≡ self.old.returned }
        ensures tallies { (other : List ℕ) → tally_of self.new other ≡ tally_of self.old other }
    {
        self.lent.retain(|lent| !is_same(name, lent));
    }
}
