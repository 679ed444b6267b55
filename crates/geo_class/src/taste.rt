//! A taste under way (geom(4)).
ghost use Rattle.std.specs.Prelude.{◌≡◌, ◌+◌, ◌^◌, ◌<◌, ◌≤◌, ℕ, length, slice_get, IfSome};
ghost use Rattle.geo_model.specs.Counts.{Counts as CountsValue};
ghost use Rattle.geo_model.specs.Bios.{read_back};
ghost use Rattle.geo_model.specs.Chain.{feed, no_links};
ghost use Rattle.geo_model.specs.Events.{tasting_classes};
ghost use Rattle.geo_model.specs.World.{NoClass, ReadBack, ReadOut, NextSector, is_read_out};
ghost use Rattle.geo_model.specs.declared.step.BioResult.TheVariants.{Bytes as BytesValue};
ghost use Rattle.geo_class.specs.ebr.ChainView.{chain_after, link_verdict};
ghost use Rattle.geo_class.specs.Taste.{asked_of, chain_with, ended, sector_back, settled, shape_of, verdict_back, verdict_with, weighed, with_next};

use crate::ebr::{Chain, Link};
use crate::verdict::judge;
use geo_base::{ConsId, Kind, ProvId, SharedBytes};
use geo_model::{BioResult, Facts, Shape, Verdict};
use std::marker::Model;

/// The classes that a taste asks, in this order.
const CLASSES: [Kind; 5] = [
    Kind::Mbr,
    Kind::Ebr,
    Kind::Label,
    Kind::Concat,
    Kind::Stripe,
];

/// How far a class has been asked.
#[derive(Debug, Drop)]
pub enum Asked {
    NoClass,
    NextSector { kind: Kind, sector: u64 },
    ReadOut { kind: Kind },
    ReadBack { kind: Kind, got: BioResult },
}

/// A taste of a provider: the classes that are left, the one that is asked, the reads made for it, and the chain
/// that EBR has read. Contracts see the model's taste.
#[derive(Debug, Drop)]
pub struct Taste {
    provider: ProvId,
    consumer: ConsId,
    passed: usize,
    asked: Asked,
    reads: u64,
    chain: Chain,
}

impl Model for Taste {
    ghost use Rattle.std.specs.Prelude.{◌≤◌, drop};
    ghost use Rattle.geo_model.specs.Events.{tasting_classes};
    ghost use Rattle.geo_model.specs.World.{Taste as TasteValue};
    ghost use Rattle.geo_class.specs.Taste.{asked_of};

    ghost Value = { TasteValue };

    ghost view = { λ t. record {
      provider = t.provider;
      consumer = t.consumer;
      classes = drop t.passed tasting_classes;
      asked = asked_of t.asked;
      reads = t.reads;
      chain = t.chain.chain;
    } };

    ghost invariant = { λ t. t.passed ≤ 5 };
}

/// An answer of a chain as a verdict of the class.
fn verdict_of(link: Link) -> Verdict
    ensures { result ≡ link_verdict link }
{
    match link {
        Link::More(sector) => Verdict::More(sector),
        Link::Declined(cause) => Verdict::Decline(cause),
        Link::Whole(table) => Verdict::Accept(Shape::Logical(table)),
    }
}

/// What EBR says to the bytes of the next link, together with the links that were read.
fn judge_chain(chain: &mut Chain, sector: &[u8], facts: &Facts) -> Verdict
    requires { 512 ≤ length sector.now }
    ensures verdict { result ≡ feed facts.now.sectors chain.old.chain sector.now }
    ensures chain { chain.new ≡ chain_after (record chain.old { sectors = facts.now.sectors }) sector.now result }
{
    chain.set_sectors(facts.sectors);
    verdict_of(chain.feed(sector))
}

/// What a class says to the bytes of a sector; EBR says it together with the links that were read, and keeps the link
/// where another one is wanted.
fn weigh(chain: &mut Chain, kind: Kind, sector: &[u8], facts: &Facts) -> Verdict
    requires { 512 ≤ length sector.now }
    ensures verdict { result ≡ verdict_with chain.old.chain kind sector.now facts.now }
    ensures chain { chain.new.chain ≡ chain_with chain.old.chain kind sector.now facts.now result }
{
    match kind {
        Kind::Ebr => judge_chain(chain, sector, facts),
        _ => judge(kind, sector, facts),
    }
}

impl Taste {
    /// A taste of the provider to which TASTE's consumer is attached. No class was asked yet.
    pub fn new(provider: ProvId, consumer: ConsId) -> Taste
        ensures { result ≡ record {
          provider = provider;
          consumer = consumer;
          classes = tasting_classes;
          asked = NoClass;
          reads = 0;
          chain = no_links;
        } }
    {
        Taste {
            provider,
            consumer,
            passed: 0,
            asked: Asked::NoClass,
            reads: 0,
            chain: Chain::new(0),
        }
    }

    /// The provider that is tasted.
    pub fn provider(&self) -> ProvId
        ensures { result ≡ self.now.provider }
    {
        self.provider
    }

    /// The consumer of TASTE that is attached to it.
    pub fn consumer(&self) -> ConsId
        ensures { result ≡ self.now.consumer }
    {
        self.consumer
    }

    /// How far a class has been asked.
    pub fn asked(&self) -> &Asked
        ensures { asked_of result.now ≡ self.now.asked }
    {
        &self.asked
    }

    /// How many reads were made for the class that is asked.
    pub fn reads(&self) -> u64
        ensures { result ≡ self.now.reads }
    {
        self.reads
    }

    /// Whether its read is out.
    pub fn read_out(&self) -> bool
        ensures { result ≡ is_read_out self.now.asked }
    {
        matches!(&self.asked, Asked::ReadOut { .. })
    }

    /// Takes the next class off those that are left. None where none is left, and all stays.
    pub fn next_class(&mut self) -> Option<Kind>
        ensures next { result ≡ slice_get self.old.classes 0 }
        ensures rest { self.new ≡ with_next self.old self.old.classes }
    {
        let next = CLASSES.get(self.passed).copied();
        if next.is_some() {
            self.passed += 1;
            self.end_class();
        }
        next
    }

    /// The class that is asked is done with.
    pub fn end_class(&mut self)
        ensures { self.new ≡ ended self.old }
    {
        self.asked = Asked::NoClass;
        self.reads = 0;
        self.chain.clear();
    }

    /// The read of a sector for a class is out.
    pub fn note_read(&mut self, kind: Kind)
        requires { self.old.reads < 2 ^ 63 }
        ensures { self.new ≡ record self.old { asked = ReadOut kind; reads = self.old.reads + 1 } }
    {
        self.asked = Asked::ReadOut { kind };
        self.reads += 1;
    }

    /// The read that is out is back with this result. Where none is out all stays.
    pub fn take_back(&mut self, got: BioResult)
        ensures { self.new ≡ record self.old { asked = read_back got self.old.asked } }
    {
        if let Asked::ReadOut { kind } = &self.asked {
            let kind = *kind;
            self.asked = Asked::ReadBack { kind, got };
        }
    }

    /// A class wants a sector next.
    fn want_next(&mut self, kind: Kind, sector: u64)
        ensures { self.new ≡ record self.old { asked = NextSector kind sector } }
    {
        self.asked = Asked::NextSector { kind, sector };
    }

    /// Takes the sector that is back, with the class that asked for it. None where none is back, and all stays.
    fn take_sector(&mut self) -> Option<(Kind, SharedBytes)>
        ensures sector { result ≡ sector_back self.old.asked }
        ensures taste { self.new ≡ record self.old { asked = NoClass } }
    {
        match std::mem::replace(&mut self.asked, Asked::NoClass) {
            Asked::ReadBack {
                kind,
                got: BioResult::Bytes(block),
            } => Some((kind, block)),
            _ => None,
        }
    }

    /// What a class says to the bytes of a sector; EBR keeps the link where another one is wanted, and else all stays.
    fn weigh(&mut self, kind: Kind, sector: &[u8], facts: &Facts) -> Verdict
        requires { 512 ≤ length sector.now }
        ensures verdict { result ≡ verdict_with self.old.chain kind sector.now facts.now }
        ensures taste { self.new
            ≡ record self.old { chain = chain_with self.old.chain kind sector.now facts.now result } }
    {
        weigh(&mut self.chain, kind, sector, facts)
    }

    /// A class has this sector back.
    fn put_back(&mut self, kind: Kind, sector: SharedBytes)
        ensures { self.new ≡ record self.old { asked = ReadBack kind (BytesValue sector) } }
    {
        self.asked = Asked::ReadBack {
            kind,
            got: BioResult::Bytes(sector),
        };
    }

    /// A verdict on a sector is known: where it is accepted it is kept.
    fn settle(&mut self, kind: Kind, sector: SharedBytes, verdict: &Verdict)
        ensures { self.new ≡ settled self.old kind sector verdict.now }
    {
        match verdict {
            Verdict::More(next) => self.want_next(kind, *next),
            Verdict::Decline(_) => self.end_class(),
            Verdict::Accept(_) => self.put_back(kind, sector),
        }
    }

    /// What the class that is asked found in the sector that is back, where it accepts it and the tasted provider has
    /// these facts. None where it declines or wants another sector, the read failed, or none is back. Where it accepts,
    /// the taste stays as it is, and the class is done with only at `end_class`: so what it found can be made, and
    /// nothing is forgotten where that fails. Else the class is done with, unless it wants another sector.
    pub fn weigh_back(&mut self, facts: &Facts) -> Option<Shape>
        requires { IfSome (sector_back self.old.asked) (λ x. 512 ≤ length x.1) }
        ensures shape { (granted : ℕ → CountsValue)
            → result ≡ shape_of (verdict_back granted self.old facts.now) }
        ensures taste { (granted : ℕ → CountsValue)
            → self.new ≡ weighed granted self.old facts.now (verdict_back granted self.old facts.now) }
    {
        let Some((kind, block)) = self.take_sector() else {
            self.end_class();
            return None;
        };
        let verdict = self.weigh(kind, block.bytes(), facts);
        self.settle(kind, block, &verdict);
        match verdict {
            Verdict::Accept(shape) => Some(shape),
            Verdict::More(_) => None,
            Verdict::Decline(_) => None,
        }
    }
}
