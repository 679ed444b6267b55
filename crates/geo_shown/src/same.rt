//! Whether two listings are the same line by line.
ghost use Rattle.std.specs.Prelude.{◌≡◌, ◌↔◌, IsTrue};

use geo_base::{Counts, Kind, Name};
use geo_model::{ConsLine, GeomLine, MeshList, ProvLine};

fn same_names(a: &Name, b: &Name) -> bool
    ensures { IsTrue result ↔ (a.now ≡ b.now) }
{
    a.bytes() == b.bytes()
}

fn same_counts(a: &Counts, b: &Counts) -> bool
    ensures { IsTrue result ↔ (a.now ≡ b.now) }
{
    a == b
}

fn same_provider(a: &ProvLine, b: &ProvLine) -> bool
    ensures { IsTrue result ↔ (a.now ≡ b.now) }
{
    same_names(&a.name, &b.name)
        && a.size == b.size
        && a.sector == b.sector
        && same_counts(&a.counts, &b.counts)
        && a.errored == b.errored
}

fn same_providers(a: &[ProvLine], b: &[ProvLine]) -> bool
    ensures { IsTrue result ↔ (a.now ≡ b.now) }
{
    if a.len() != b.len() {
        return false;
    }
    for i in 0..a.len() {
        if !same_provider(&a[i], &b[i]) {
            return false;
        }
    }
    true
}

fn same_consumer(a: &ConsLine, b: &ConsLine) -> bool
    ensures { IsTrue result ↔ (a.now ≡ b.now) }
{
    same_names(&a.prov, &b.prov) && same_counts(&a.counts, &b.counts)
}

fn same_consumers(a: &[ConsLine], b: &[ConsLine]) -> bool
    ensures { IsTrue result ↔ (a.now ≡ b.now) }
{
    if a.len() != b.len() {
        return false;
    }
    for i in 0..a.len() {
        if !same_consumer(&a[i], &b[i]) {
            return false;
        }
    }
    true
}

fn same_kind(a: Kind, b: Kind) -> bool
    ensures { IsTrue result ↔ (a ≡ b) }
{
    a == b
}

fn same_geom(a: &GeomLine, b: &GeomLine) -> bool
    ensures { IsTrue result ↔ (a.now ≡ b.now) }
{
    same_kind(a.kind, b.kind)
        && same_names(&a.name, &b.name)
        && a.rank == b.rank
        && a.withering == b.withering
        && same_providers(a.providers.items(), b.providers.items())
        && same_consumers(a.consumers.items(), b.consumers.items())
}

fn same_geoms(a: &[GeomLine], b: &[GeomLine]) -> bool
    ensures { IsTrue result ↔ (a.now ≡ b.now) }
{
    if a.len() != b.len() {
        return false;
    }
    for i in 0..a.len() {
        if !same_geom(&a[i], &b[i]) {
            return false;
        }
    }
    true
}

/// Whether two listings are the same line by line.
pub fn same_lists(a: &MeshList, b: &MeshList) -> bool
    ensures { IsTrue result ↔ (a.now ≡ b.now) }
{
    same_geoms(a.items(), b.items())
}
