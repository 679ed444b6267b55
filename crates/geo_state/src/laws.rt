//! What is kept beside the parts of the mesh follows each change of a part.
ghost use Rattle.std.specs.Prelude.{ℕ, List};
ghost use Rattle.geo_base.specs.declared.request.Counts.{Counts};
ghost use Rattle.geo_model.specs.World.{Config as ConfigValue};
ghost use Rattle.geo_model.specs.Events.{QueuedTopology};
ghost use Rattle.geo_mesh.specs.Topo.{TopoView};
ghost use Rattle.geo_state.specs.Trips.{Trip};
ghost use Rattle.geo_state.specs.Changes.{KeptWithHandles};
ghost use Rattle.geo_state.specs.Grants.{GrantsFollow};
ghost use Rattle.geo_state.specs.Owed.{PlacesAreOwed};
ghost use Rattle.geo_state.specs.Sites.{KeptWithSites};
ghost use Rattle.geo_state.specs.Views.{StatesShow};
ghost use Rattle.geo_state.specs.Laws.{EffectsKeepParts, FieldsFollow, HoldsAfterEffects};

/// Marks, errors, geoms that wither and offers leave each geom its disk, each provider its geom and the consumers their
/// numbers.
#[tactic(auto, using(crate::proofs::LawLemmas::effects_keep_parts))]
pub fn effects_keep_parts()
    ensures { (granted : ℕ → Counts) (q : QueuedTopology ConfigValue) → EffectsKeepParts granted q }
{}

/// All is kept after effects.
pub fn holds_after_effects()
    ensures { HoldsAfterEffects }
{}

/// Fields follow where a consumer came or is gone, and where the disks stay.
#[tactic(auto, using(crate::proofs::LawLemmas::fields_follow))]
pub fn fields_follow()
    ensures { (t u : TopoView ConfigValue) (xs : List Trip) → FieldsFollow t u xs }
{}

/// All is kept after handles were opened, closed and reaped, and after an open was refused.
#[tactic(auto, using(crate::proofs::KeptLemmas::kept_with_handles))]
pub fn kept_with_handles()
    ensures { KeptWithHandles }
{}

/// All is kept after geoms, providers and consumers came or went, by commands, tastes and washes.
#[tactic(auto, using(crate::proofs::SiteLemmas::kept_with_sites))]
pub fn kept_with_sites()
    ensures { KeptWithSites }
{}

/// How many places of the queue are owed: at most two for each provider, and after a release as many less as providers
/// are noted.
#[tactic(auto, using(crate::proofs::OwedLemmas::places_are_owed))]
pub fn places_are_owed()
    ensures { PlacesAreOwed }
{}

/// What is kept beside the parts is what the mesh's definitions search for.
pub fn states_show()
    ensures { StatesShow }
{}

/// What is granted follows where a consumer came, where its grant changed, and where a taste's read is out or not.
#[tactic(auto, using(crate::proofs::GrantLaws::grants_follow))]
pub fn grants_follow()
    ensures { GrantsFollow }
{}
