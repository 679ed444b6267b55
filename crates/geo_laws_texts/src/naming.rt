//! Laws of names: each provider has a name that is one (geom(4)).
ghost use Rattle.geo_laws_texts.specs.Naming.{LegalLogsHaveNames};

/// Where a legal log leads each provider has a name that is one: 1 to 63 bytes of letters, digits, `_`, `-`, `.`, `/`.
#[tactic(auto, using(crate::proofs::Logs::legal_logs_have_names))]
pub fn legal_logs_have_names()
    ensures { LegalLogsHaveNames }
{}
