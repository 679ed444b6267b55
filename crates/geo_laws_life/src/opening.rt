//! Laws of the opening: it is sound, steady and fitting (geom(4)).
ghost use Rattle.geo_laws_life.specs.OpeningLaws.{OpeningsAreFitting, OpeningsAreSound, OpeningsAreSteady};

/// The world with which a mesh begins is sound, steady and fitting, whatever the lines of its plan.
pub fn openings_are_sound()
    ensures sound { OpeningsAreSound }
    ensures steady { OpeningsAreSteady }
    ensures fitting { OpeningsAreFitting }
{}
