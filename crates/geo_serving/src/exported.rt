//! The handle of the mesh under which each export is open.
ghost use Rattle.std.specs.Prelude.{◌≡◌, IfSome};
ghost use Rattle.geo_model.specs.Plans.{IsShortName};
ghost use Rattle.geo_serving.specs.Handles.{handle_at, handle_of, place_of};

use geo_base::Name;
use geo_nbd::Export;

/// The most exports.
pub const MAX_EXPORTS: usize = 10;

/// The name of the handle under which an export is open, by its place: `n` and a digit.
pub fn handle_of(place: usize) -> Option<Name>
    ensures handle { result ≡ handle_of place }
    ensures short { IfSome result IsShortName }
{
    if place >= MAX_EXPORTS {
        return None;
    }
    match Name::new(&[b'n', b'0' + place as u8]) {
        Ok(name) if name.is_short() => Some(name),
        _ => None,
    }
}

/// The place of the first export of a name.
fn place_of(exports: &[Export], name: &Name) -> Option<usize>
    ensures { result ≡ place_of exports.now name.now }
{
    exports
        .iter()
        .position(|export| export.name.bytes() == name.bytes())
}

/// The name of the handle of an export.
pub fn handle_at(exports: &[Export], export: &Export) -> Option<Name>
    ensures handle { result ≡ handle_at exports.now export.now }
    ensures short { IfSome result IsShortName }
{
    match place_of(exports, &export.name) {
        Some(place) => handle_of(place),
        None => None,
    }
}
