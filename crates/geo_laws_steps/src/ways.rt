//! Laws of address maps along the steps of a sound, steady and fitting mesh (geom(4)).
ghost use Rattle.geo_laws_steps.specs.WayLaws.{StepsKeepUsed, WaysKeepMaps};

/// Where providers with all that is below them stay what they are, their address maps stay.
#[tactic(auto, using(crate::proofs::SameMaps::ways_keep_maps))]
pub fn ways_keep_maps()
    ensures { WaysKeepMaps }
{}

/// No step, by any seat, changes the map of a provider to which a bio goes, nor anything below it.
#[tactic(auto, using(crate::proofs::Steps::steps_keep_used))]
pub fn steps_keep_used()
    ensures { StepsKeepUsed }
{}
