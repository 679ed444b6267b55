//! Where disks are taken from and given back.
ghost use Rattle.std.specs.Prelude.{◌≡◌, ℕ, ◌≤◌, ◌<◌, ◌↔◌, [], ◌∷◌, ◌++◌, List, Contains, IfErr, IfSome, IsErrOf, IsTrue, None, OnOk, is_err};
ghost use Rattle.geo_base.specs.Faults.{HasCause, Rose};
ghost use Rattle.geo_base.specs.Images.{IsDiskSize};
ghost use Rattle.geo_base.specs.Sectors.{IsSectorSize};
ghost use Rattle.geo_disk.specs.Shelf.{CountsCall, GivesToShelf, IfTaken, IsBrought, IsOfSize, ShelfView, TakesFromShelf, answer_of, is_take_failed, lent_by, lent_without};

use crate::disk::Disk;
use geo_base::{MAX_IMAGE_BYTES, Name};
use thiserror::Error;

/// What `take` found.
#[derive(Debug, Drop)]
pub enum Taken<D> {
    /// The disk, which isn't on the shelf any more.
    Disk(D),
    /// The shelf has no such name.
    Missing,
    /// What is under the name isn't one or more whole sectors, or is longer than 2^40 bytes. It stays on the shelf.
    BadSize,
}

/// Why nothing was taken.
#[derive(Clone, Copy, Debug, PartialEq, Eq, Error)]
pub enum ShelfFault {
    /// The shelf failed.
    #[error("the shelf failed")]
    Failed,
    /// Memory ran out.
    #[error("out of memory")]
    NoMemory,
}

/// A disk couldn't be given back, and stays lent.
#[derive(Debug, Drop, Error)]
#[error("a disk couldn't be given back")]
pub struct GiveFault<D> {
    pub name: Name,
    pub disk: D,
}

/// What `take` answered, without the disk.
#[derive(Clone, Copy)]
pub enum TakeAnswer {
    Disk,
    Missing,
    BadSize,
    Failed,
    NoMemory,
}

impl TakeAnswer {
    /// The answer without the disk.
    pub fn of<D>(answer: &Result<Taken<D>, ShelfFault>) -> TakeAnswer
        ensures { result ≡ answer_of answer.now }
    {
        match answer {
            Ok(Taken::Disk(_)) => TakeAnswer::Disk,
            Ok(Taken::Missing) => TakeAnswer::Missing,
            Ok(Taken::BadSize) => TakeAnswer::BadSize,
            Err(ShelfFault::Failed) => TakeAnswer::Failed,
            Err(ShelfFault::NoMemory) => TakeAnswer::NoMemory,
        }
    }
}

/// A call of a shelf.
#[derive(Clone, Copy)]
pub enum ShelfCall {
    /// The disk of this name was asked for, and this was the answer.
    Take(Name, TakeAnswer),
    /// The disk of this name was offered back.
    Give(Name),
}

/// Whether so many bytes are one or more whole sectors, and at most 2^40.
pub fn is_disk_size(size: u64, sector: u32) -> bool
    requires { 0 < sector }
    ensures { IsTrue result ↔ IsDiskSize sector size }
{
    1 <= size && size % u64::from(sector) == 0 && size <= MAX_IMAGE_BYTES
}

/// Disks under names. A disk is lent from when it is taken until it was given back.
pub trait Shelf {
    /// The disks of the shelf.
    type D: Disk;

    /// What its calls show: the bytes under each name, where the shelf tells them, the names that are lent, how many of
    /// its calls failed, what they were and what each take answered, and of each name how many takes and gives failed,
    /// and with how many faults, after which calls, and with how many sectors its disk was last offered back.
    ghost view: { Self → ShelfView };

    /// Takes the disk of a name, to be used in sectors of this size. A call that goes through counts no fault.
    fn take(&mut self, name: &Name, sector: u32) -> Result<Taken<Self::D>, ShelfFault>
        requires { IsSectorSize sector }
        ensures found { TakesFromShelf Self.D.view name.now sector result (view self.old).told (view self.new).told }
        ensures not_lent { IfTaken result (λ d. Contains (view self.old).lent name.now → ⊥) }
        ensures size { IfTaken result (λ d. IsOfSize sector (Self.D.view d).sector (Self.D.view d).count) }
        ensures brought { IfTaken result (λ d. (Self.D.view d).faults ≡ (view self.old).faults_of name.now) }
        ensures asked { IfTaken result (λ d. (Self.D.view d).asked ≡ (view self.old).asked_of name.now) }
        ensures lent { (view self.new).lent ≡ lent_by result name.now (view self.old).lent }
        ensures counts { (other : List ℕ) → (view self.new).faults_of other ≡ (view self.old).faults_of other }
        ensures asked_before { (other : List ℕ) → (view self.new).asked_of other ≡ (view self.old).asked_of other }
        ensures sectors { (other : List ℕ) → (view self.new).sectors_of other ≡ (view self.old).sectors_of other }
        ensures later { (view self.old).faults ≤ (view self.new).faults }
        ensures failed { IsErrOf result ShelfFault.Failed → Rose (view self.old).faults (view self.new).faults }
        ensures no_fault { OnOk result ((view self.new).faults ≡ (view self.old).faults) }
        ensures takes { CountsCall (is_take_failed result) name.now (view self.old).take_faults
            (view self.new).take_faults }
        ensures gives { (other : List ℕ) → (view self.new).give_faults other ≡ (view self.old).give_faults other }
        ensures called { (view self.new).calls
            ≡ (view self.old).calls ++ ShelfCall.Take name.now (answer_of result) ∷ [] };

    /// Gives back the disk that was taken under a name. After a fault it is still lent. Whether it is taken back or
    /// not, what it was asked, its faults and its sectors are known of its name then. A call that goes through counts
    /// no fault.
    fn give(&mut self, name: &Name, disk: Self::D) -> Result<(), GiveFault<Self::D>>
        requires is_lent { Contains (view self.old).lent name.now }
        requires counted { (view self.old).faults_of name.now ≤ (Self.D.view disk).faults }
        ensures given { GivesToShelf (Self.D.view disk).held name.now result (view self.old).told (view self.new).told }
        ensures lent { (view self.new).lent ≡ lent_without result name.now (view self.old).lent }
        ensures counts { IsBrought name.now (Self.D.view disk).faults (view self.old).faults_of
            (view self.new).faults_of }
        ensures asked { IsBrought name.now (Self.D.view disk).asked (view self.old).asked_of (view self.new).asked_of }
        ensures sectors { IsBrought name.now (Self.D.view disk).count (view self.old).sectors_of
            (view self.new).sectors_of }
        ensures name { IfErr result (λ e. e.name ≡ name.now) }
        ensures disk { IfErr result (λ e. e.disk ≡ disk) }
        ensures cause { HasCause (view self.old).faults (view self.new).faults result }
        ensures no_fault { OnOk result ((view self.new).faults ≡ (view self.old).faults) }
        ensures takes { (other : List ℕ) → (view self.new).take_faults other ≡ (view self.old).take_faults other }
        ensures gives { CountsCall (is_err result) name.now (view self.old).give_faults (view self.new).give_faults }
        ensures called { (view self.new).calls ≡ (view self.old).calls ++ ShelfCall.Give name.now ∷ [] };

    /// Under a name that is lent the shelf has nothing.
    ghost lent_is_missing: { (shelf : Self) (name : List ℕ) → Contains (view shelf).lent name
        → IfSome (view shelf).told (λ images. images name ≡ None) };
}
