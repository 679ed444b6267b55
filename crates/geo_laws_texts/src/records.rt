//! Laws of records that are declined.
ghost use Rattle.geo_laws_texts.specs.RecordLaws.{ConcatPlacesAreJudged, StripePlacesAreJudged, StripeSizesAreJudged};

/// A record whose head is in order, but whose place isn't one of 1 to 16 places, is declined with the cause `Place`.
pub fn places_are_judged()
    ensures concats { ConcatPlacesAreJudged }
    ensures stripes { StripePlacesAreJudged }
{}

/// A record of a stripe whose head and place are in order, but whose stripe size is 0, above 32,768 or no multiple of
/// the sector size, is declined with the cause `Size`.
#[tactic(auto, using(crate::proofs::RecordProofs::stripe_sizes_are_judged))]
pub fn stripe_sizes_are_judged()
    ensures { StripeSizesAreJudged }
{}
