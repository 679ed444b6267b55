//! The names of providers that a taste makes.
ghost use Rattle.std.specs.Prelude.{◌≡◌, ◌++◌, ◌<◌, true};
ghost use Rattle.geo_base.specs.Name.{is_name, name_of};
ghost use Rattle.geo_model.specs.Names.{slice_name, logical_name, label_name};
ghost use Rattle.geo_taste.specs.Members.{joined_name};
ghost use Rattle.geo_taste.specs.Free.{untaken, free_name};

use geo_base::{Kind, Name};
use geo_class::Config;
use geo_mesh::Topo;

/// The name with these bytes before it, if that is one.
fn with_head(head: &[u8], name: &Name) -> Option<Name>
    requires { is_name head.now ≡ true }
    ensures { result ≡ name_of (head.now ++ name.now) }
{
    match Name::new(head) {
        Ok(front) => front.with_tail(name.bytes()).ok(),
        Err(_) => None,
    }
}

/// The name of a slice of an MBR table, by its place from 0 on.
pub fn slice_name(below: &Name, place: u8) -> Option<Name>
    requires { place < 4 }
    ensures { result ≡ name_of (slice_name below.now place) }
{
    below.with_tail(&[b's', 49 + place]).ok()
}

/// The name of a logical partition, by its place in the chain from 0 on.
#[tactic(auto, using(crate::proofs::NameLemmas::name_of_one, crate::proofs::NameLemmas::name_of_two))]
pub fn logical_name(below: &Name, place: u8) -> Option<Name>
    requires { place < 99 }
    ensures { result ≡ name_of (logical_name below.now place) }
{
    let number = place + 1;
    if number < 10 {
        below.with_tail(&[b'l', 48 + number]).ok()
    } else {
        below
            .with_tail(&[b'l', 48 + number / 10, 48 + number % 10])
            .ok()
    }
}

/// The name, if it is one and no provider without an error has it.
fn untaken(topo: &Topo<Config>, name: Option<Name>) -> Option<Name>
    ensures { result ≡ untaken topo.now.topology name }
{
    match name {
        Some(name) => {
            if topo.is_name_taken(&name) {
                None
            } else {
                Some(name)
            }
        }
        None => None,
    }
}

/// The name of the provider of a label, if one of it can be made.
#[tactic(auto, using(crate::proofs::NameLemmas::untaken_name))]
pub fn free_label_name(topo: &Topo<Config>, name: &Name) -> Option<Name>
    ensures { result ≡ free_name topo.now.topology (label_name name.now) }
{
    untaken(topo, with_head(b"label/", name))
}
/// The name of the provider of an assembly of a class.
fn joined_name(kind: Kind, name: &Name) -> Option<Name>
    ensures { result ≡ name_of (joined_name kind name.now) }
{
    match kind {
        Kind::Stripe => with_head(b"stripe/", name),
        _ => with_head(b"concat/", name),
    }
}

/// The name of the provider of an assembly of a class, if one of it can be made.
#[tactic(auto, using(crate::proofs::NameLemmas::untaken_name))]
pub fn free_joined_name(topo: &Topo<Config>, kind: Kind, name: &Name) -> Option<Name>
    ensures { result ≡ free_name topo.now.topology (joined_name kind name.now) }
{
    untaken(topo, joined_name(kind, name))
}
