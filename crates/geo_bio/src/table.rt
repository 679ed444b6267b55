//! The table of bios.
ghost use Rattle.std.specs.Prelude.{◌≡◌, ◌+◌, ◌-◌, ◌<◌, ◌≤◌, ◌^◌, max, [], ◌∷◌, ◌++◌, length, IsOk, OnOk, IfOk, IfSome, OnErr, IsTrue, option_copied};
ghost use Rattle.std.specs.Option.{option_map};
ghost use Rattle.geo_model.specs.Bios.{new_bio, up_with};
ghost use Rattle.geo_model.specs.World.{change_number, children_among, is_down, is_busy, is_up, is_waiting, is_root, bio_among};
ghost use Rattle.geo_model.specs.Words.{is_write};
ghost use Rattle.geo_bio.specs.BioTable.{AreInOrder, HasParent, has_phase, is_going, bio_from, with_phase, delivered};
ghost use Rattle.geo_bio.specs.Rows.{as_bio, KnowsChildren};
ghost use Rattle.geo_bio.specs.Split.{split_into};
ghost use Rattle.geo_bio.specs.Up.{told_of_up, after_up};

use crate::bio::{Bio, Held, Risen};
use crate::gather::{rise_in, take_root};
use crate::log_bytes::LogBytes;
use crate::rows::end_with;
use crate::split::{make_children, split_bio};
use crate::targets::Targets;
use geo_base::{BioCmd, BioId, ConsId, Errno, NoMemory, ProvId, SharedBytes};
use geo_class::PieceList;
use geo_model::{Owner, Phase, Span};
use geo_slots::Slots;
use std::alloc::Global;
use std::marker::Model;

/// The bios that are on their way. Contracts see their list in order of numbers, the next number and the spare number.
///
/// The bios that one was split into have numbers that follow each other, so it finds them without a search.
#[derive(Drop)]
pub struct BioTable {
    bios: Slots<Bio>,
}

impl Model for BioTable {
    ghost use Rattle.std.specs.Prelude.{map};
    ghost use Rattle.geo_bio.specs.BioTable.{BioTableView};

    ghost Value = { BioTableView };

    ghost use Rattle.geo_bio.specs.Rows.{seen_row, IsTable};

    ghost view = { λ t. record { bios = map seen_row t.bios.rows; next = t.bios.next; spare = t.bios.spare } };

    ghost invariant = { λ t. IsTable t.bios.rows t.bios.next };
}

impl BioTable {
    /// A table without bios, whose first number will be 1. It takes no memory yet.
    pub fn new(alloc: Global) -> BioTable
        ensures { result ≡ record { bios = []; next = 1; spare = 0 } }
    {
        BioTable {
            bios: Slots::new(alloc),
        }
    }

    /// Makes room for `count` bios. They stay, and the room is no less than it was, also where memory is wanting.
    pub fn reserve(&mut self, count: u64) -> Result<(), NoMemory>
        ensures bios_stay { self.new ≡ record self.old { spare = self.new.spare } }
        ensures room_stays { self.old.spare ≤ self.new.spare }
        ensures room { OnOk result (count ≤ self.new.spare) }
        ensures had_room { count ≤ self.old.spare → IsOk result }
        ensures no_more { self.new.spare ≤ max self.old.spare count }
    {
        self.bios.reserve(count)?;
        Ok(())
    }

    /// The bio of a number. One that waits tells the number of its first child, how many children it has, and how many
    /// of them are done; the parent of a child waits. The numbers of the bios count from 1, rise, and are below the
    /// next one.
    pub fn get(&self, bio: BioId) -> Option<&Bio>
        ensures found { option_map (as_bio bio) (option_copied result) ≡ bio_among self.now.bios bio }
        ensures family { IfSome (option_copied result) (λ x.
            IsTrue (is_waiting x.phase) → KnowsChildren bio (children_among self.now.bios bio) x) }
        ensures parent { IfSome (option_copied result) (λ x. HasParent self.now.bios x.owner) }
        ensures in_order { AreInOrder self.now }
        ensures bound { self.now.next < 2 ^ 64 }
    {
        self.bios.get(bio.number())
    }

    /// The bio with the least number that isn't below a number: the first one, since they stand in order of numbers.
    pub fn next_from(&self, number: u64) -> Option<BioId>
        ensures first { result ≡ bio_from self.now.bios number }
        ensures in_order { AreInOrder self.now }
    {
        match self.bios.first_from(number) {
            Some(first) => Some(BioId::new(first)),
            None => None,
        }
    }

    /// A new bio of a script's line or of the taste, which is still to be started. It takes memory only where no room
    /// is spare. Where no number is left the answer is want of memory.
    pub fn submit(
        &mut self,
        cmd: BioCmd,
        span: Span,
        bytes: SharedBytes,
        from: ConsId,
        to: ProvId,
        owner: Owner,
    ) -> Result<BioId, NoMemory>
        requires root { IsTrue (is_root owner) }
        requires bytes_fit { IsTrue (is_write cmd) → length bytes ≡ span.len }
        ensures number { IfOk result (λ bio. bio ≡ self.old.next) }
        ensures submitted { OnOk result (self.new.bios
            ≡ self.old.bios ++ new_bio self.old.next cmd span.offset span.len bytes from to owner ∷ []) }
        ensures next { OnOk result (self.new.next ≡ self.old.next + 1) }
        ensures bios_stay { OnErr result (self.new.bios ≡ self.old.bios) }
        ensures next_stays { OnErr result (self.new.next ≡ self.old.next) }
        ensures room { OnOk result (self.new.spare ≡ self.old.spare - 1) }
        ensures room_stays { OnErr result (self.old.spare ≤ self.new.spare) }
        ensures had_room { 1 ≤ self.old.spare → IsOk result }
        ensures in_order { OnOk result (AreInOrder self.new) }
        ensures bound { OnOk result (self.new.next < 2 ^ 64) }
    {
        self.bios.reserve(1)?;
        Ok(BioId::new(
            self.bios.insert(Bio {
                cmd,
                span,
                bytes,
                from,
                to,
                owner,
                phase: Phase::Down,
                children: 0,
                finished: 0,
                first_child: 0,
                held: None,
            }),
        ))
    }

    /// A bio is split into children, one for each piece, in piece order, and waits for them. The first child's number
    /// is answered; the others have the numbers that follow. The children take of the room what there is, and where
    /// memory is wanting the room is no less than it was. 2^32 pieces or more, and numbers that are used up, are
    /// answered as want of memory.
    pub fn start(
        &mut self,
        alloc: Global,
        bio: BioId,
        pieces: &PieceList,
        targets: &Targets,
    ) -> Result<BioId, NoMemory>
        requires down { IsTrue (has_phase is_down self.old.bios bio) }
        requires some { 1 ≤ length pieces.now.items }
        requires same_number { length targets.now.items ≡ length pieces.now.items }
        ensures first { IfOk result (λ first. first ≡ self.old.next) }
        ensures split { IfSome (bio_among self.old.bios bio) (λ x. OnOk result
            (self.new.bios ≡ change_number bio (with_phase Phase.Waiting) self.old.bios
            ++ split_into self.old.next x 0 pieces.now.items targets.now.items)) }
        ensures next { OnOk result (self.new.next ≡ self.old.next + length pieces.now.items) }
        ensures room { OnOk result (self.new.spare ≡ self.old.spare - length pieces.now.items) }
        ensures bios_stay { OnErr result (self.new.bios ≡ self.old.bios) }
        ensures next_stays { OnErr result (self.new.next ≡ self.old.next) }
        ensures room_stays { OnErr result (self.old.spare ≤ self.new.spare) }
        ensures in_order { OnOk result (AreInOrder self.new) }
        ensures bound { OnOk result (self.new.next < 2 ^ 64) }
    {
        let items = pieces.items();
        if items.len() > u32::MAX as usize {
            return Err(NoMemory);
        }
        let number = bio.number();
        let children = match self.bios.get(number) {
            Some(parent) => make_children(alloc, bio, parent, items, targets.items())?,
            None => unreachable!(),
        };
        self.bios.reserve(children.len() as u64)?;
        Ok(BioId::new(split_bio(&mut self.bios, number, children)))
    }

    /// A bio that isn't let down: it goes up with an error.
    pub fn bounce(&mut self, bio: BioId, errno: Errno)
        requires { IsTrue (has_phase is_down self.old.bios bio) }
        ensures bounced { self.new ≡ record self.old {
          bios = change_number bio (up_with (Held.Failed errno)) self.old.bios;
        } }
        ensures in_order { AreInOrder self.new }
    {
        end_with(&mut self.bios, bio.number(), Held::Failed(errno));
    }

    /// A bio that is on its way itself, and waits for no children, comes to another phase of which this is so too.
    pub fn set_phase(&mut self, bio: BioId, phase: Phase)
        requires was { IsTrue (has_phase is_going self.old.bios bio) }
        requires is { IsTrue (is_going phase) }
        ensures set { self.new ≡ record self.old { bios = change_number bio (with_phase phase) self.old.bios } }
        ensures in_order { AreInOrder self.new }
    {
        let Some(found) = self.bios.get_mut(bio.number()) else {
            unreachable!()
        };
        found.phase = phase;
    }

    /// A bio's disk has answered: it goes up with the bytes at this place of the log, with success, or with an error.
    pub fn deliver(&mut self, bio: BioId, place: u64, errno: Option<Errno>)
        requires { IsTrue (has_phase is_busy self.old.bios bio) }
        ensures delivered { self.new ≡ record self.old {
          bios = change_number bio (delivered place errno) self.old.bios;
        } }
        ensures in_order { AreInOrder self.new }
    {
        let Some(found) = self.bios.get_mut(bio.number()) else {
            unreachable!()
        };
        let held = match (errno, found.cmd) {
            (Some(errno), _) => Held::Failed(errno),
            (None, BioCmd::Read) => Held::AtPlace(place),
            (None, _) => Held::Done,
        };
        found.phase = Phase::Up;
        found.held = Some(held);
    }

    /// A bio's disk has answered: it goes up with this.
    pub fn end(&mut self, bio: BioId, held: Held)
        requires { IsTrue (has_phase is_busy self.old.bios bio) }
        ensures ended { self.new ≡ record self.old { bios = change_number bio (up_with held) self.old.bios } }
        ensures in_order { AreInOrder self.new }
    {
        end_with(&mut self.bios, bio.number(), held);
    }

    /// A bio goes up to its owner (g_io_deliver). A child counts in its parent; the last one gives it the first error
    /// in the order of the pieces, else the bytes joined in this order, and the children are gone. A root is gone, and
    /// its result is handed on.
    pub fn up<B: LogBytes>(&mut self, alloc: Global, bio: BioId, log: &B) -> Result<Risen, NoMemory>
        requires { IsTrue (has_phase is_up self.old.bios bio) }
        ensures told { IfSome (bio_among self.old.bios bio) (λ x. IfOk result (λ risen.
            risen ≡ told_of_up (B.place_bytes log.now) self.old.bios x x.owner)) }
        ensures rises { IfSome (bio_among self.old.bios bio) (λ x. OnOk result
            (self.new.bios ≡ after_up (B.place_bytes log.now) self.old.bios x x.owner)) }
        ensures bios_stay { OnErr result (self.new.bios ≡ self.old.bios) }
        ensures next_stays { self.new.next ≡ self.old.next }
        ensures room_stays { self.new.spare ≡ self.old.spare }
        ensures in_order { AreInOrder self.new }
    {
        let number = bio.number();
        let owner = match self.bios.get(number) {
            Some(found) => found.owner,
            None => unreachable!(),
        };
        match owner {
            Owner::Child { parent, .. } => rise_in(&mut self.bios, alloc, number, parent, log),
            _ => take_root(&mut self.bios, alloc, number, log),
        }
    }
}
