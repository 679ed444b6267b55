//! What is shown.
ghost use Rattle.std.specs.Prelude.{◌≡◌};
ghost use Rattle.geo_jobs.specs.Passes.{IsGoodPass};
ghost use Rattle.geo_jobs.specs.Listings.{listing_seen};

use geo_core::Mesh;
use geo_lock::Pass;
use geo_model::MeshList;
use std::snapshot::Snapshot;

/// The mesh as it is printed, and the pass as it was when it had seen that mesh.
#[derive(Drop)]
pub struct Shown {
    pub list: MeshList,
    pub at: Snapshot<Pass<Mesh>>,
    ghost is_listing: { list ≡ listing_seen at.value },
    ghost good: { ∥ IsGoodPass at.value ∥₁ },
}

/// A list that the pass shows, at this moment of it.
pub fn shown_at(pass: &Pass<Mesh>, list: MeshList) -> Shown
    requires { list ≡ listing_seen pass.now }
    ensures { (result.list ≡ list) × (result.at.value ≡ pass.now) }
{
    // A pass is good at any moment.
    let _ = pass.number();
    let at = Snapshot::of(pass);
    Shown { list, at }
}
