//! What is said of the bios here is what the mesh's definitions say of a world that has them.
ghost use Rattle.std.specs.Prelude.{ℕ, List, Option};
ghost use Rattle.geo_model.specs.World.{BioOf};
ghost use Rattle.geo_bio.specs.declared.bio.Held.{Held};
ghost use Rattle.geo_state.specs.ShownLaws.{ShownAreFound, ShownChanges, WorldShowsBios, DeliveriesAreShown, PlaceIsAnswer, GrownLogShowsTheSame, PlacesStayLogged};

/// What is found, chosen and counted among the bios of a world is what is among those of the table.
pub fn shown_are_found()
    ensures { (log : ℕ → Option (List ℕ)) (bios : List (BioOf Held)) → ShownAreFound log bios }
{}

/// Changes of the table's bios are changes of the world's.
#[tactic(auto, using(crate::proofs::ShownLemmas::shown_change))]
pub fn shown_change()
    ensures { (log : ℕ → Option (List ℕ)) (bios : List (BioOf Held)) → ShownChanges log bios }
{}

/// The steps of bios do in a world what the table's calls do.
#[tactic(auto, using(crate::proofs::StepLemmas::world_shows_bios))]
pub fn world_shows_bios()
    ensures { WorldShowsBios }
{}

/// A delivery does in a world what it does in the table.
pub fn deliveries_are_shown()
    ensures { DeliveriesAreShown }
{}

/// The place of a Deliver tells what the device answered.
#[tactic(auto, using(crate::proofs::StepLemmas::place_is_answer))]
pub fn place_is_answer()
    ensures { PlaceIsAnswer }
{}

/// A log that grew shows the same bios.
#[tactic(auto, using(crate::proofs::LoggedLemmas::grown_log_shows_the_same))]
pub fn grown_log_shows_the_same()
    ensures { GrownLogShowsTheSame }
{}

/// Each call leaves only places that the log has.
#[tactic(auto, using(crate::proofs::LoggedLemmas::places_stay_logged))]
pub fn places_stay_logged()
    ensures { PlacesStayLogged }
{}
