//! Laws of what a mesh keeps where only its bios change, or only the commands left.
ghost use Rattle.geo_laws_bios.specs.BioFrames.{BiosAreApart, CommandsAreApart, RestartsStayFirm};

/// A firm mesh with other bios is firm where these are in order.
#[tactic(auto, using(crate::proofs::Turned::bios_are_apart))]
pub fn bios_are_apart()
    ensures { BiosAreApart }
{}

/// Other commands left of the actors change nothing, as long as they are commands.
#[tactic(auto, using(crate::proofs::Turned::commands_are_apart))]
pub fn commands_are_apart()
    ensures { CommandsAreApart }
{}

/// How many requests geoms have started changes nothing.
pub fn restarts_stay_firm()
    ensures { RestartsStayFirm }
{}
