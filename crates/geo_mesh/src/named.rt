//! What finds a geom by its class and its name.
ghost use Rattle.std.specs.Prelude.{◌≡◌, ◌<◌, ◌^◌, option_map};
ghost use Rattle.geo_slots.specs.Slots.{IsRising, value_at};
ghost use Rattle.geo_mesh.specs.Rows.{rows_with, first_row, passes};
ghost use Rattle.geo_mesh.specs.Notes.{geom_name};
ghost use Rattle.geo_mesh.specs.Named.{is_of, is_of_class};

use crate::records::GeomCell;
use geo_base::{Kind, Name};
use geo_names::Names;
use geo_slots::Slots;

// Whether the geom is there and of the class.
fn is_of_class<C>(geoms: &Slots<GeomCell<C>>, geom: u64, kind: Kind) -> bool
    ensures class { result ≡ passes (is_of_class kind) (value_at geoms.now.rows geom) }
    ensures rising { IsRising 1 geoms.now.rows geoms.now.next }
    ensures bound { geoms.now.next < 2 ^ 64 }
{
    geoms.get(geom).is_some_and(|cell| cell.geom.kind == kind)
}

/// The first geom of the class and of the name from a number on: the names tell those of the name, of whatever class.
pub fn first_of<C>(
    geoms: &Slots<GeomCell<C>>,
    names: &Names,
    kind: Kind,
    name: &Name,
    from: u64,
) -> Option<u64>
    requires { names.now.rows ≡ rows_with geom_name geoms.now.rows }
    ensures { result ≡ option_map (λ row. row.0) (first_row (is_of kind name.now) geoms.now.rows from) }
{
    let mut at = from;
    while let Some(geom) = names.first_from(name, at) {
        if is_of_class(geoms, geom, kind) {
            return Some(geom);
        }
        at = geom + 1;
    }
    None
}
