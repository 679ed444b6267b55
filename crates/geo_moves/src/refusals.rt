//! What is against a geom that a command would make.
ghost use Rattle.std.specs.Prelude.{◌≡◌, ◌+◌, ◌%◌, ◌==◌, ◌||◌, nat_lt, not, ◌∷◌, [], map, length, List, ℕ, Option};
ghost use Rattle.std.specs.Option.{option_map};
ghost use Rattle.geo_base.specs.Name.{is_name, name_of};
ghost use Rattle.geo_base.specs.Sectors.{IsSectorSize};
ghost use Rattle.geo_model.specs.Words.{first_error};
ghost use Rattle.geo_model.specs.Topology.{Provider, is_name_taken};
ghost use Rattle.geo_model.specs.World.{Config as Seen};
ghost use Rattle.geo_model.specs.Acceptance.{joined_size, is_size};
ghost use Rattle.geo_model.specs.GeomCommands.{is_invalid_nop, is_invalid_stripe, joined_tests, nop_tests};
ghost use Rattle.geo_class.specs.Assembly.{allowed_size};
ghost use Rattle.geo_laws_texts.specs.Naming.{HaveNames};
ghost use Rattle.geo_moves.specs.Below.{any_errored, below_seen, have_sector, is_bad_join, is_bad_nop, is_bad_stripe, rank_below, sector_below, tests_below};

use crate::below::{Below, any_errored, have_sector, rank_below, sector_below};
use geo_base::{Errno, MAX_RANK, MAX_STRIPE_BYTES, Name};
use geo_class::Config;
use geo_mesh::Topo;

/// Whether a stripe size isn't whole sectors, or is longer than the longest request.
pub fn is_bad_stripe(stripe: u64, below: &[Below]) -> bool
    requires sector { IsSectorSize (sector_below below.now) }
    ensures { result ≡ is_bad_stripe stripe below.now }
{
    stripe % u64::from(sector_below(below)) != 0 || MAX_STRIPE_BYTES < stripe
}

// Whether the sector sizes differ, or the size is none that a provider may have.
fn is_bad_join(below: &[Below], size: Option<u64>) -> bool
    ensures { result ≡ is_bad_join below.now size }
{
    !have_sector(sector_below(below), below) || size.is_none()
}

// The first that is against them, by what was found.
fn first_against(
    topo: &Topo<Config>,
    name: &Name,
    below: &[Below],
    wanted: usize,
    size: Option<u64>,
    is_bad: bool,
) -> Option<Errno>
    ensures { result ≡ first_error (tests_below topo.now.topology name.now below.now wanted size is_bad) }
{
    if topo.is_name_taken(name) {
        return Some(Errno::EEXIST);
    }
    if below.len() != wanted {
        return Some(Errno::ENOENT);
    }
    if any_errored(below) {
        return Some(Errno::ENXIO);
    }
    if is_bad || is_bad_join(below, size) {
        return Some(Errno::EINVAL);
    }
    if MAX_RANK <= rank_below(below) {
        return Some(Errno::EDEEP);
    }
    None
}

/// What is against a concat or a stripe of this name over the providers that were found for `wanted` names, where
/// `size` is the one that they make together, if a provider may have it: the name is taken; a name was not found; a
/// provider carries an error; something doesn't fit; it would be too deep.
pub fn joined_refusal(
    topo: &Topo<Config>,
    name: &Name,
    below: &[Below],
    wanted: usize,
    size: Option<u64>,
    is_bad: bool,
) -> Option<Errno>
    ensures { (config : Seen) (ps : List Provider) → below.now ≡ map (below_seen topo.now.topology) ps
        → size ≡ allowed_size (joined_size config)
        → result ≡ first_error (joined_tests topo.now.topology name.now config wanted ps is_bad) }
{
    first_against(topo, name, below, wanted, size, is_bad)
}

// Whether a window of the provider is empty, isn't in whole sectors or passes the media.
fn is_bad_window(below: &Below, offset: u64, size: u64) -> bool
    requires sector { IsSectorSize below.now.sector }
    ensures { result ≡ is_bad_nop below.now offset size }
{
    let sector = u64::from(below.sector);
    size == 0
        || offset % sector != 0
        || size % sector != 0
        || below.size < offset
        || below.size - offset < size
}

// Whether a provider without an error has the name, where there is one of so many bytes.
fn is_taken(topo: &Topo<Config>, name: &Option<Name>) -> bool
    requires named { HaveNames topo.now.topology }
    ensures { (bytes : List ℕ) → name.now ≡ name_of bytes → result ≡ is_name_taken topo.now.topology bytes }
{
    match name {
        Some(name) => topo.is_name_taken(name),
        None => false,
    }
}

/// What is against a nop over the provider, `name` being what its provider would be named, if that is a name: the
/// provider carries an error; the name is taken; the window or the name is bad; it would be too deep.
pub fn nop_refusal(
    topo: &Topo<Config>,
    below: &Below,
    name: &Option<Name>,
    offset: u64,
    size: u64,
) -> Option<Errno>
    requires named { HaveNames topo.now.topology }
    requires sector { IsSectorSize below.now.sector }
    ensures { (p : Provider) (bytes : List ℕ) → below.now ≡ below_seen topo.now.topology p → name.now ≡ name_of bytes
        → result ≡ first_error (nop_tests topo.now.topology bytes offset size p) }
{
    if below.errored {
        return Some(Errno::ENXIO);
    }
    if is_taken(topo, name) {
        return Some(Errno::EEXIST);
    }
    if is_bad_window(below, offset, size) || name.is_none() {
        return Some(Errno::EINVAL);
    }
    if MAX_RANK <= below.rank {
        return Some(Errno::EDEEP);
    }
    None
}
