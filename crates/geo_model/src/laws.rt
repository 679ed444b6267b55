//! The laws of the definitions.
ghost use Rattle.geo_model.specs.FormatLaws.{ConcatsAreRead, LabelsAreRead, StripesAreRead};
ghost use Rattle.geo_model.specs.Laws.{ClosesAreNeverFull, CountsAreSums, DeliversAreNeverFull, ErrorsAreFirst, LegalJoins, LegalParts, PickEnds, PiecesArePlaced, PiecesFollow, RanksAreHighest, StartsAreInParts, WorldsJoin};

/// In a ranked graph the counts of a provider are the sum over the consumers attached to it.
pub fn counts_are_sums()
    ensures { CountsAreSums }
{}

/// In a ranked graph the rank of a geom is one more than the highest rank below it.
pub fn ranks_are_highest()
    ensures { RanksAreHighest }
{}

/// A log in two parts.
pub fn logs_join()
    ensures worlds { WorldsJoin }
    ensures legal { LegalJoins }
    ensures parts { LegalParts }
{}

/// The pieces of a request follow each other over all of it, and each byte of them lies where the address map says.
pub fn pieces_are_placed()
    ensures placed { PiecesArePlaced }
    ensures follow { PiecesFollow }
{}

/// A Deliver, and a close that is answered ok, spend a place of the log that was owed, so none of them is ever
/// refused for want of a place.
pub fn owed_places_are_kept()
    ensures delivers { DeliversAreNeverFull }
    ensures closes { ClosesAreNeverFull }
{}

/// The error of a finished bio is the first that it met.
pub fn errors_are_first()
    ensures { ErrorsAreFirst }
{}

/// At rest the fixed order gives no step.
pub fn pick_ends_at_rest()
    ensures { PickEnds }
{}

/// Each record that a class writes is found again.
pub fn records_are_read()
    ensures labels { LabelsAreRead }
    ensures concats { ConcatsAreRead }
    ensures stripes { StripesAreRead }
{}

/// A bio goes down by what the graph tells and what becomes of the bios, taken apart.
#[tactic(auto, using(crate::proofs::WayLemmas::starts_in_parts))]
pub fn starts_are_in_parts()
    ensures { StartsAreInParts }
{}
