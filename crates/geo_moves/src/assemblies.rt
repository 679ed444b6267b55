//! What tells a concat from a stripe that a command makes (gconcat(8), gstripe(8)).
ghost use Rattle.std.specs.Prelude.{◌≡◌, ℕ, ◌++◌, ◌≤◌, List, length, map, true, IsTrue};
ghost use Rattle.geo_base.specs.Name.{is_name, is_short_name};
ghost use Rattle.geo_base.specs.Sectors.{IsSectorSize};
ghost use Rattle.geo_model.specs.GeomCommands.{found_providers};
ghost use Rattle.geo_class.specs.Assembly.{allowed_size};
ghost use Rattle.geo_class.specs.Places.{ArePlaces};
ghost use Rattle.geo_moves.specs.Assemblies.{AreAllFound, assembly_config, assembly_kind, assembly_name, assembly_refusal, assembly_size, has_bad_strips};
ghost use Rattle.geo_moves.specs.Below.{sector_below};

use crate::below::Below;
use crate::refusals::{is_bad_stripe, joined_refusal};
use geo_base::{ConsId, Errno, Kind, MAX_COMPONENTS, MAX_MEDIA_BYTES, Name};
use geo_class::{Config, concat_size, stripe_size};
use geo_mesh::Topo;

/// How an assembly puts its components together.
#[derive(Clone, Copy, Debug)]
pub enum Assembly {
    /// One behind another.
    Concat,
    /// In strips of so many bytes, from each in turn.
    Stripe(u32),
}

/// The class of an assembly's geom.
pub fn assembly_kind(assembly: Assembly) -> Kind
    ensures { result ≡ assembly_kind assembly }
{
    match assembly {
        Assembly::Concat => Kind::Concat,
        Assembly::Stripe(_) => Kind::Stripe,
    }
}

/// The size of an assembly of components of these sizes, in bytes. None where no provider may have it.
pub fn assembly_size(assembly: Assembly, sizes: &[u64]) -> Option<u64>
    requires { length sizes.now ≤ MAX_COMPONENTS }
    ensures { result ≡ allowed_size (assembly_size assembly sizes.now) }
{
    match assembly {
        Assembly::Concat => concat_size(sizes),
        Assembly::Stripe(stripe) => stripe_size(stripe, sizes),
    }
}

// Whether an assembly has strips that aren't whole sectors, or are longer than the longest request.
fn has_bad_strips(assembly: Assembly, below: &[Below]) -> bool
    requires { IsSectorSize (sector_below below.now) }
    ensures { result ≡ has_bad_strips assembly (sector_below below.now) }
{
    match assembly {
        Assembly::Concat => false,
        Assembly::Stripe(stripe) => is_bad_stripe(u64::from(stripe), below),
    }
}

/// The name of an assembly's provider, by that of its geom.
pub fn assembly_name(assembly: Assembly, name: &Name) -> Name
    requires { IsTrue (is_short_name name.now) }
    ensures { result ≡ assembly_name assembly name.now }
{
    match assembly {
        Assembly::Concat => joined_name(b"concat/", name),
        Assembly::Stripe(_) => joined_name(b"stripe/", name),
    }
}

/// What is against an assembly of what was found for `wanted` names, as `joined_refusal` says; `size` is its size, if a
/// provider may have it.
pub fn assembly_refusal(
    topo: &Topo<Config>,
    assembly: Assembly,
    name: &Name,
    below: &[Below],
    wanted: usize,
    size: Option<u64>,
) -> Option<Errno>
    requires short { IsTrue (is_short_name name.now) }
    requires sector { IsSectorSize (sector_below below.now) }
    ensures { (names : List (List ℕ)) → AreAllFound topo.now.topology names below.now
        → size ≡ allowed_size (assembly_size assembly (map (λ x. x.size) below.now))
        → result ≡ assembly_refusal topo.now.topology assembly name.now wanted
        (found_providers topo.now.topology names) }
{
    let full = assembly_name(assembly, name);
    let is_bad = has_bad_strips(assembly, below);
    joined_refusal(topo, &full, below, wanted, size, is_bad)
}

/// An assembly's configuration, by the consumers and the sizes of its components, which have sectors of `sector` bytes.
pub fn assembly_config(
    assembly: Assembly,
    places: Vec<Option<ConsId>>,
    sizes: Vec<u64>,
    sector: u32,
) -> Config
    requires places { ArePlaces places.items sizes.items }
    requires some { 1 ≤ assembly_size assembly sizes.items }
    requires limited { assembly_size assembly sizes.items ≤ MAX_MEDIA_BYTES }
    ensures { result ≡ assembly_config assembly places.items sizes.items }
{
    match assembly {
        Assembly::Concat => Config::concat(None, places, sizes, sector),
        Assembly::Stripe(stripe) => Config::stripe(None, stripe, places, sizes, sector),
    }
}

// These bytes before the name of a geom.
fn joined_name(head: &[u8], name: &Name) -> Name
    requires head { is_name head.now ≡ true }
    requires small { length head.now ≤ 8 }
    requires short { IsTrue (is_short_name name.now) }
    ensures { result ≡ head.now ++ name.now }
{
    let Ok(front) = Name::new(head) else {
        unreachable!()
    };
    let Ok(full) = front.with_tail(name.bytes()) else {
        unreachable!()
    };
    full
}
