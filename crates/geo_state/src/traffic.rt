//! The bios on their way, with what finds the next one that is due.
ghost use Rattle.std.specs.Prelude.{◌≡◌, ◌+◌, ◌-◌, ◌<◌, ◌≤◌, ◌==◌, ◌^◌, max, [], ◌∷◌, ◌++◌, length, IsOk, OnOk, IfOk, IfSome, OnErr, IsTrue, option_copied};
ghost use Rattle.std.specs.Option.{option_map, option_map_or};
ghost use Rattle.geo_model.specs.Bios.{new_bio, up_with};
ghost use Rattle.geo_model.specs.World.{change_number, children_among, is_down, is_sent, is_busy, is_up, is_waiting, is_root, bio_among};
ghost use Rattle.geo_model.specs.Words.{is_write};
ghost use Rattle.geo_model.specs.Graph.{AreNumbers};
ghost use Rattle.geo_bio.specs.BioTable.{HasParent, AreInOrder, has_phase, bio_from, with_phase, delivered};
ghost use Rattle.geo_bio.specs.Rows.{as_bio, KnowsChildren};
ghost use Rattle.geo_bio.specs.Split.{split_into};
ghost use Rattle.geo_bio.specs.Up.{told_of_up, after_up, resolved};
ghost use Rattle.geo_state.specs.Traffic.{first_in, count_in};
ghost use Rattle.geo_state.specs.Cursors.{up_after, family_size, gone_by};

use crate::cursor::{Cursor, Due, with_last, with_one, without_one};
use geo_base::{BioCmd, BioId, ConsId, Errno, NoMemory, ProvId, SharedBytes};
use geo_bio::{Bio, BioTable, Held, LogBytes, Risen, Targets, copied_at};
use geo_class::PieceList;
use geo_model::{BioResult, Owner, Phase, Span};
use std::alloc::Global;
use std::marker::Model;

/// The bios that are on their way, and which of them is due next, which isn't searched. Contracts see their list in
/// order of numbers, the next number and the spare number.
///
/// Only a bio that leaves its phase while it is the first there, and not the last, leads to a search, from its
/// number on. In the fixed order at most one bio is Sent or Up, and those that are Down follow each other.
#[derive(Drop)]
pub struct Traffic {
    bios: BioTable,
    down: Cursor,
    sent: Cursor,
    up: Cursor,
    busy: u64,
    live: u64,
}

impl Model for Traffic {
    ghost use Rattle.geo_state.specs.Traffic.{TrafficView};

    ghost Value = { TrafficView };

    ghost use Rattle.geo_state.specs.Cursors.{IsKept};

    ghost view = { λ t. t.bios };

    ghost invariant = { λ t. IsKept t.bios t.down t.sent t.up t.busy t.live };
}

const NOTHING: Cursor = Cursor {
    count: 0,
    first: None,
};

impl Traffic {
    /// No bio; the first number will be 1. It takes no memory yet.
    pub fn new(alloc: Global) -> Traffic
        ensures { result ≡ record { bios = []; next = 1; spare = 0 } }
    {
        Traffic {
            bios: BioTable::new(alloc),
            down: NOTHING,
            sent: NOTHING,
            up: NOTHING,
            busy: 0,
            live: 0,
        }
    }

    /// Makes room for `count` bios. They stay, and the room is no less than it was, also where memory is wanting.
    pub fn reserve(&mut self, count: u64) -> Result<(), NoMemory>
        ensures bios_stay { self.new ≡ record self.old { spare = self.new.spare } }
        ensures room_stays { self.old.spare ≤ self.new.spare }
        ensures room { OnOk result (count ≤ self.new.spare) }
        ensures had_room { count ≤ self.old.spare → IsOk result }
        ensures no_more { self.new.spare ≤ max self.old.spare count }
    {
        self.bios.reserve(count)
    }

    /// How many bios there are.
    pub fn len(&self) -> u64
        ensures { result ≡ length self.now.bios }
    {
        self.live
    }

    /// Whether there is none.
    pub fn is_empty(&self) -> bool
        ensures { result ≡ (length self.now.bios == 0) }
    {
        self.live == 0
    }

    /// How many bios are Busy.
    pub fn busy(&self) -> u64
        ensures { result ≡ count_in is_busy self.now.bios }
    {
        self.busy
    }

    /// The first bio that is Up.
    pub fn first_up(&self) -> Option<BioId>
        ensures { result ≡ first_in is_up self.now.bios }
    {
        self.up.first.map(BioId::new)
    }

    /// The first bio that is Sent.
    pub fn first_sent(&self) -> Option<BioId>
        ensures { result ≡ first_in is_sent self.now.bios }
    {
        self.sent.first.map(BioId::new)
    }

    /// The first bio that is Down.
    pub fn first_down(&self) -> Option<BioId>
        ensures { result ≡ first_in is_down self.now.bios }
    {
        self.down.first.map(BioId::new)
    }

    /// The bio of a number. One that waits tells the number of its first child, how many children it has, and how
    /// many of them are done; the parent of a child waits. The numbers of the bios count from 1, rise, and are below
    /// the next one.
    pub fn get(&self, bio: BioId) -> Option<&Bio>
        ensures found { option_map (as_bio bio) (option_copied result) ≡ bio_among self.now.bios bio }
        ensures family { IfSome (option_copied result) (λ x.
            IsTrue (is_waiting x.phase) → KnowsChildren bio (children_among self.now.bios bio) x) }
        ensures parent { IfSome (option_copied result) (λ x. HasParent self.now.bios x.owner) }
        ensures in_order { AreInOrder self.now }
        ensures bound { self.now.next < 2 ^ 64 }
    {
        self.bios.get(bio)
    }

    /// The bio with the least number that isn't below a number: the first one, as they stand in order of numbers.
    pub fn next_from(&self, number: u64) -> Option<BioId>
        ensures first { result ≡ bio_from self.now.bios number }
        ensures in_order { AreInOrder self.now }
    {
        self.bios.next_from(number)
    }

    /// A new bio of a script's line or of the taste, which is still to be started. It takes memory only where no
    /// room is spare. Where no number is left the answer is want of memory.
    pub fn submit(
        &mut self,
        cmd: BioCmd,
        span: Span,
        bytes: SharedBytes,
        from: ConsId,
        to: ProvId,
        owner: Owner,
    ) -> Result<BioId, NoMemory>
        requires root { IsTrue (is_root owner) }
        requires bytes_fit { IsTrue (is_write cmd) → length bytes ≡ span.len }
        ensures number { IfOk result (λ bio. bio ≡ self.old.next) }
        ensures submitted { OnOk result (self.new.bios
            ≡ self.old.bios ++ new_bio self.old.next cmd span.offset span.len bytes from to owner ∷ []) }
        ensures next { OnOk result (self.new.next ≡ self.old.next + 1) }
        ensures bios_stay { OnErr result (self.new.bios ≡ self.old.bios) }
        ensures next_stays { OnErr result (self.new.next ≡ self.old.next) }
        ensures room { OnOk result (self.new.spare ≡ self.old.spare - 1) }
        ensures room_stays { OnErr result (self.old.spare ≤ self.new.spare) }
        ensures had_room { 1 ≤ self.old.spare → IsOk result }
    {
        let bio = self.bios.submit(cmd, span, bytes, from, to, owner)?;
        self.down = with_last(self.down, bio.number(), 1);
        self.live += 1;
        Ok(bio)
    }

    /// A bio is split into children, one for each piece, in piece order, and waits for them. The first child's number
    /// is answered; the others have the numbers that follow. The children take of the room what there is, and where
    /// memory is wanting the room is no less than it was. 2^32 pieces or more, and numbers that are used up, are
    /// answered as want of memory.
    pub fn start(
        &mut self,
        alloc: Global,
        bio: BioId,
        pieces: &PieceList,
        targets: &Targets,
    ) -> Result<BioId, NoMemory>
        requires down { IsTrue (has_phase is_down self.old.bios bio) }
        requires some { 1 ≤ length pieces.now.items }
        requires same_number { length targets.now.items ≡ length pieces.now.items }
        ensures first { IfOk result (λ first. first ≡ self.old.next) }
        ensures split { IfSome (bio_among self.old.bios bio) (λ x. OnOk result
            (self.new.bios ≡ change_number bio (with_phase Phase.Waiting) self.old.bios
            ++ split_into self.old.next x 0 pieces.now.items targets.now.items)) }
        ensures next { OnOk result (self.new.next ≡ self.old.next + length pieces.now.items) }
        ensures room { OnOk result (self.new.spare ≡ self.old.spare - length pieces.now.items) }
        ensures bios_stay { OnErr result (self.new.bios ≡ self.old.bios) }
        ensures next_stays { OnErr result (self.new.next ≡ self.old.next) }
        ensures room_stays { OnErr result (self.old.spare ≤ self.new.spare) }
        ensures in_order { AreInOrder self.old }
    {
        let down = without_one(self.down, &self.bios, Due::Start, bio);
        let first = self.bios.start(alloc, bio, pieces, targets)?;
        let count = pieces.items().len() as u64;
        self.down = with_last(down, first.number(), count);
        self.live += count;
        Ok(first)
    }

    /// A bio that isn't let down: it goes up with an error.
    pub fn bounce(&mut self, bio: BioId, errno: Errno)
        requires { IsTrue (has_phase is_down self.old.bios bio) }
        ensures bounced { self.new ≡ record self.old {
          bios = change_number bio (up_with (Held.Failed errno)) self.old.bios;
        } }
        ensures in_order { AreInOrder self.old }
    {
        self.down = without_one(self.down, &self.bios, Due::Start, bio);
        self.bios.bounce(bio, errno);
        self.up = with_one(self.up, bio.number());
    }

    /// A bio goes to its disk.
    pub fn send(&mut self, bio: BioId)
        requires { IsTrue (has_phase is_down self.old.bios bio) }
        ensures sent { self.new ≡ record self.old { bios = change_number bio (with_phase Phase.Sent) self.old.bios } }
        ensures in_order { AreInOrder self.old }
    {
        self.down = without_one(self.down, &self.bios, Due::Start, bio);
        self.bios.set_phase(bio, Phase::Sent);
        self.sent = with_one(self.sent, bio.number());
    }

    /// A seat takes a bio for its disk.
    pub fn take(&mut self, bio: BioId, seat: u32)
        requires { IsTrue (has_phase is_sent self.old.bios bio) }
        ensures taken { self.new ≡ record self.old {
          bios = change_number bio (with_phase (Phase.Busy seat)) self.old.bios;
        } }
        ensures in_order { AreInOrder self.old }
    {
        self.sent = without_one(self.sent, &self.bios, Due::Take, bio);
        self.bios.set_phase(bio, Phase::Busy(seat));
        self.busy += 1;
    }

    /// A bio's disk has answered: it goes up with the bytes at this place of the log, with success or with an error.
    pub fn deliver(&mut self, bio: BioId, place: u64, errno: Option<Errno>)
        requires { IsTrue (has_phase is_busy self.old.bios bio) }
        ensures delivered { self.new ≡ record self.old {
          bios = change_number bio (delivered place errno) self.old.bios;
        } }
        ensures in_order { AreInOrder self.old }
    {
        self.bios.deliver(bio, place, errno);
        self.busy -= 1;
        self.up = with_one(self.up, bio.number());
    }

    /// A bio's disk has answered: it goes up with this.
    pub fn end(&mut self, bio: BioId, held: Held)
        requires { IsTrue (has_phase is_busy self.old.bios bio) }
        ensures ended { self.new ≡ record self.old { bios = change_number bio (up_with held) self.old.bios } }
        ensures in_order { AreInOrder self.old }
    {
        self.bios.end(bio, held);
        self.busy -= 1;
        self.up = with_one(self.up, bio.number());
    }

    /// A bio goes up to its owner (g_io_deliver). A child counts in its parent; the last one gives it the first
    /// error in the order of the pieces, else the bytes joined in this order, and the children are gone. A root is
    /// gone, and its result is handed on.
    pub fn up<B: LogBytes>(&mut self, alloc: Global, bio: BioId, log: &B) -> Result<Risen, NoMemory>
        requires { IsTrue (has_phase is_up self.old.bios bio) }
        ensures told { IfSome (bio_among self.old.bios bio) (λ x. IfOk result (λ risen.
            risen ≡ told_of_up (B.place_bytes log.now) self.old.bios x x.owner)) }
        ensures rises { IfSome (bio_among self.old.bios bio) (λ x. OnOk result
            (self.new.bios ≡ after_up (B.place_bytes log.now) self.old.bios x x.owner)) }
        ensures bios_stay { OnErr result (self.new.bios ≡ self.old.bios) }
        ensures next_stays { self.new.next ≡ self.old.next }
        ensures room_stays { self.new.spare ≡ self.old.spare }
    {
        let up = without_one(self.up, &self.bios, Due::Up, bio);
        let family = family_size(&self.bios, bio);
        let risen = self.bios.up(alloc, bio, log)?;
        let after = up_after(up, family, &risen);
        self.up = after.0;
        self.live -= after.1;
        Ok(risen)
    }

    /// What a bio that has ended holds, with a copy of its bytes: what it hands on when it goes up as a root.
    pub fn copied<B: LogBytes>(
        &self,
        alloc: Global,
        bio: BioId,
        log: &B,
    ) -> Result<BioResult, NoMemory>
        ensures { IfSome (bio_among self.now.bios bio) (λ x. IfOk result (λ got.
            got ≡ resolved (B.place_bytes log.now) x.result)) }
    {
        match self.bios.get(bio) {
            Some(found) => copy_of(alloc, &found.held, log),
            None => Ok(BioResult::Done),
        }
    }
}

// What a bio holds, with a copy of its bytes.
fn copy_of<B: LogBytes>(alloc: Global, held: &Option<Held>, log: &B) -> Result<BioResult, NoMemory>
    ensures { IfOk result (λ got. got ≡ resolved (B.place_bytes log.now) held.now) }
{
    match held {
        Some(Held::Bytes(bytes)) => Ok(BioResult::Bytes(bytes.copy(alloc)?)),
        Some(Held::AtPlace(place)) => Ok(BioResult::Bytes(copied_at(alloc, *place, log)?)),
        Some(Held::Failed(errno)) => Ok(BioResult::Failed(*errno)),
        _ => Ok(BioResult::Done),
    }
}

// How many children a bio has, if it waits for them.
fn count_children(bios: &BioTable, parent: BioId) -> u32
    ensures { IsTrue (has_phase is_waiting bios.now.bios parent)
        → result ≡ length (children_among bios.now.bios parent) }
{
    match bios.get(parent) {
        Some(found) => found.children,
        None => 0,
    }
}

// How many children wait for the parent that a bio has, if it is a child.
fn family_size(bios: &BioTable, bio: BioId) -> u32
    ensures size { IfSome (bio_among bios.now.bios bio) (λ x. result ≡ family_size bios.now.bios x.owner) }
    ensures parent { IfSome (bio_among bios.now.bios bio) (λ x. HasParent bios.now.bios x.owner) }
{
    match bios.get(bio) {
        Some(found) => match found.owner {
            Owner::Child { parent, .. } => count_children(bios, parent),
            _ => 0,
        },
        None => 0,
    }
}

// What becomes of the cursor of those that are Up, and how many bios are gone.
fn up_after(cursor: Cursor, family: u32, risen: &Risen) -> (Cursor, u64)
    requires { cursor.count + 1 < 2 ^ 64 }
    ensures up { result.0 ≡ up_after cursor risen.now }
    ensures gone { result.1 ≡ gone_by family risen.now }
{
    match risen {
        Risen::Root(_) => (cursor, 1),
        Risen::InParent {
            parent,
            complete: true,
        } => (with_one(cursor, parent.number()), family as u64),
        Risen::InParent { .. } => (cursor, 0),
    }
}
