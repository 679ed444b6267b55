//! The law of chains.
ghost use Rattle.geo_laws_texts.specs.ChainLaws.{ChainsAreRead};

/// A media has the table of a chain exactly where its links stand at sectors that are a chain, and by these links.
pub fn chains_are_read()
    ensures { ChainsAreRead }
{}
