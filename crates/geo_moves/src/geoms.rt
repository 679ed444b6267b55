//! Geoms as they are printed, and the listing of all of them.
ghost use Rattle.std.specs.Prelude.{◌≡◌, ◌++◌, [], ◌∷◌, List, Some, IfOk, IfSome, IsSome, MatchOption, OnOk, map, filter};
ghost use Rattle.geo_model.specs.declared.command.LineCommand.{LineCommand};
ghost use Rattle.geo_model.specs.declared.step.Entry.{Entry};
ghost use Rattle.geo_model.specs.Listing.{listing};
ghost use Rattle.geo_model.specs.Steady.{AreAttached};
ghost use Rattle.geo_model.specs.Topology.{geom_at};
ghost use Rattle.geo_model.specs.Words.{is_granted_kind};
ghost use Rattle.geo_mesh.specs.Cells.{geom_seen};
ghost use Rattle.geo_access.specs.Access.{IsCounted, granted_by};
ghost use Rattle.geo_state.specs.Steps.{Stands};
ghost use Rattle.geo_state.specs.World.{world};
ghost use Rattle.geo_moves.specs.Lines.{IsNextGeom, geom_line, geoms_from, is_listed, mesh_lines};

use crate::parts::{cons_lines, prov_lines};
use geo_base::{GeomId, Kind, NoMemory};
use geo_class::Config;
use geo_mesh::{GeomRec, Topo};
use geo_model::{GeomLine, MeshList};
use geo_state::State;
use std::alloc::Global;

/// The mesh as it is printed: each geom but those of DEV and TASTE in order of numbers, with its rank, its providers
/// and its consumers. The counts are those that are stored, so one pass over the mesh is enough.
pub fn listing(alloc: Global, state: &State) -> Result<MeshList, NoMemory>
    requires stands { Stands state.now }
    ensures { IfOk result (λ lines. (actors : List (List LineCommand)) (log : List Entry)
        → lines ≡ listing (world actors log state.now)) }
{
    mesh_lines(alloc, &state.topo)
}

// All geoms as they are printed.
fn mesh_lines(alloc: Global, topo: &Topo<Config>) -> Result<MeshList, NoMemory>
    requires counted { IsCounted topo.now }
    requires attached { AreAttached topo.now.topology }
    ensures { IfOk result (λ lines. lines ≡ mesh_lines (granted_by topo.now) topo.now.topology) }
{
    let mut lines = MeshList::new(alloc);
    let mut from = 0;
    while let Some(geom) = geom_from(topo, from) {
        push_geom(alloc, topo, geom, &mut lines)?;
        from = geom.number() + 1;
    }
    Ok(lines)
}

// The first geom from a number on.
fn geom_from(topo: &Topo<Config>, from: u64) -> Option<GeomId>
    ensures { MatchOption result (geoms_from topo.now.topology from ≡ [])
        (λ n. IsNextGeom topo.now.topology from n) }
{
    topo.next_geom(from)
}

// Adds the line of a geom, unless it is one of DEV or TASTE.
fn push_geom(
    alloc: Global,
    topo: &Topo<Config>,
    id: GeomId,
    lines: &mut MeshList,
) -> Result<(), NoMemory>
    requires counted { IsCounted topo.now }
    requires attached { AreAttached topo.now.topology }
    requires lives { IsSome (geom_at topo.now.topology id) }
    ensures { IfSome (geom_at topo.now.topology id) (λ g. OnOk result (lines.new ≡ lines.old
        ++ map (geom_line (granted_by topo.now) topo.now.topology) (filter is_listed (g ∷ [])))) }
{
    let Some(geom) = topo.geom(id) else {
        unreachable!()
    };
    if is_granted(geom.kind) {
        return Ok(());
    }
    let line = geom_line(alloc, topo, id, geom)?;
    lines.push(line)
}

// Whether the class is DEV or TASTE.
fn is_granted(kind: Kind) -> bool
    ensures { result ≡ is_granted_kind kind }
{
    match kind {
        Kind::Dev | Kind::Taste => true,
        Kind::Disk
        | Kind::Mbr
        | Kind::Ebr
        | Kind::Label
        | Kind::Concat
        | Kind::Stripe
        | Kind::Nop => false,
    }
}

// A geom as it is printed.
fn geom_line(
    alloc: Global,
    topo: &Topo<Config>,
    id: GeomId,
    geom: &GeomRec<Config>,
) -> Result<GeomLine, NoMemory>
    requires counted { IsCounted topo.now }
    requires attached { AreAttached topo.now.topology }
    requires found { geom_at topo.now.topology id ≡ Some (geom_seen id geom.now) }
    ensures { IfOk result (λ line.
        line ≡ geom_line (granted_by topo.now) topo.now.topology (geom_seen id geom.now)) }
{
    let Some(rank) = topo.rank(id) else {
        unreachable!()
    };
    let providers = prov_lines(alloc, topo, id)?;
    let consumers = cons_lines(alloc, topo, id)?;
    Ok(GeomLine {
        kind: geom.kind,
        name: geom.name,
        rank,
        withering: geom.withering,
        providers,
        consumers,
    })
}
