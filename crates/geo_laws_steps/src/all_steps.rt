//! Laws of each step and of each legal log: a mesh stays sound, steady and fitting, opens and appends are answered by
//! what the mesh forbids, no piece is lost, and only what is idle is freed (geom(4), g_access(9), g_bio(9)).
ghost use Rattle.geo_model.specs.History.{AlwaysFreesOnlyIdle, AppendsAreAnswered, LegalAndSound, OpensAreAnswered};
ghost use Rattle.geo_model.specs.Laws.{LegalLogsOfferOnlyLiving, LegalLogsStayFitting, LegalLogsStaySteady, NoPieceIsLost, OfEachLegalLog, StepsStayFirm};
ghost use Rattle.geo_laws_steps.specs.CommandLaws.{CommandsStayFirm};

/// A firm mesh stays firm with each command of a plan, and with each Go.
#[tactic(auto, using(crate::proofs::Gone::commands_stay_firm))]
pub fn commands_stay_firm()
    ensures { CommandsStayFirm }
{}

/// Each of the nine steps leaves a firm mesh firm, by any seat, whether it is enabled or not.
pub fn steps_stay_firm()
    ensures { StepsStayFirm }
{}

/// After every prefix of a legal log the mesh is sound, steady and fitting.
pub fn legal_logs_stay_firm()
    ensures sound { OfEachLegalLog LegalAndSound }
    ensures steady { LegalLogsStaySteady }
    ensures fitting { LegalLogsStayFitting }
{}

/// In each legal log an open under a free handle name, and an append, is answered by what the mesh forbids.
pub fn opens_and_appends_are_answered()
    ensures opens { OfEachLegalLog OpensAreAnswered }
    ensures appends { OfEachLegalLog AppendsAreAnswered }
{}

/// Where a legal log leads, each piece of a request that can start has a consumer through which it goes down.
pub fn no_piece_is_lost()
    ensures { NoPieceIsLost }
{}

/// In each legal log a step destroys only what was closed, detached and idle, and offers for taste only what lives.
pub fn legal_logs_free_only_idle()
    ensures freed { OfEachLegalLog AlwaysFreesOnlyIdle }
    ensures offered { LegalLogsOfferOnlyLiving }
{}
