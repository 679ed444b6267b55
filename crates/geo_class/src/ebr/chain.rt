//! A chain of links that is read sector by sector.
ghost use Rattle.std.specs.Prelude.{◌≡◌, ◌≤◌, length};
ghost use Rattle.geo_model.specs.Chain.{feed, no_links};
ghost use Rattle.geo_class.specs.ebr.ChainView.{chain_after, link_verdict};

use crate::ebr::link::{cause_against, leads_on, named_part, next_link};
use geo_base::{DeclineCause, MAX_LINKS};
use geo_model::{EbrPart, EbrTable};
use std::marker::Model;

/// What a link says of its chain.
#[derive(Clone, Copy, Debug)]
pub enum Link {
    /// Another link stands at this sector.
    More(u64),
    /// The chain is none.
    Declined(DeclineCause),
    /// The chain ends here, with these partitions.
    Whole(EbrTable),
}

/// A chain as far as it was read. Contracts see the number of the provider's sectors, and the chain: its links, by
/// their sectors and partitions, and the sector of the next link.
#[derive(Debug, Drop)]
pub struct Chain {
    sectors: u64,
    next: u32,
    visited: [u32; MAX_LINKS],
    parts: [Option<EbrPart>; MAX_LINKS],
    count: usize,
}

impl Model for Chain {
    ghost use Rattle.geo_class.specs.ebr.ChainView.{ChainView};
    ghost use Rattle.geo_class.specs.ebr.Links.{AreLinks, chain_in};

    ghost Value = { ChainView };

    ghost view = { λ c. record { sectors = c.sectors; chain = chain_in c.visited c.parts c.count c.next } };

    ghost invariant = { λ c. AreLinks c.visited c.parts c.count };
}

impl Chain {
    /// A chain of which nothing was read, on a provider with so many sectors. Its first link stands at sector 0.
    pub fn new(sectors: u64) -> Chain
        ensures { result ≡ record { sectors = sectors; chain = no_links } }
    {
        Chain {
            sectors,
            next: 0,
            visited: [0; MAX_LINKS],
            parts: [None; MAX_LINKS],
            count: 0,
        }
    }

    /// Nothing is read of the chain from now on.
    pub fn clear(&mut self)
        ensures { self.new ≡ record { sectors = 0; chain = no_links } }
    {
        if self.count == 0 {
            self.sectors = 0;
            self.next = 0;
            return;
        }
        *self = Chain::new(0);
    }

    /// The same chain, on a provider with so many sectors.
    pub fn set_sectors(&mut self, sectors: u64)
        ensures { self.new ≡ record self.old { sectors = sectors } }
    {
        self.sectors = sectors;
    }

    /// What the sector of the next link says, whose 512 bytes these are: `More` with the sector of the link after it,
    /// `Whole` where the chain ends with it, or `Declined` with the first cause: `Signature` without 0x55, 0xAA at its
    /// end, `Second` where its second entry is of another type than 0, 0x05 and 0x0F, `Loop` where that leads to sector
    /// 0 or to a link that was read, `Far` where it leads past the media, `Long` where it leads to a 33rd link, and at
    /// the end of a chain `Nothing` where no partition is kept. The link is kept where the answer is `More`; else the
    /// chain stays as it was.
    pub fn feed(&mut self, sector: &[u8]) -> Link
        requires { 512 ≤ length sector.now }
        ensures answer { link_verdict result ≡ feed self.old.sectors self.old.chain sector.now }
        ensures chain { self.new ≡ chain_after self.old sector.now (link_verdict result) }
    {
        let mut visited = self.visited;
        let mut parts = self.parts;
        visited[self.count] = self.next;
        parts[self.count] = named_part(sector, self.sectors, self.next);
        let count = self.count + 1;
        if let Some(cause) = cause_against(
            sector,
            self.sectors,
            &visited[..count],
            &parts[..count],
        ) {
            return Link::Declined(cause);
        }
        if !leads_on(sector) {
            return Link::Whole(EbrTable { parts });
        }
        self.next = next_link(sector);
        self.visited = visited;
        self.parts = parts;
        self.count = count;
        Link::More(u64::from(self.next))
    }
}
