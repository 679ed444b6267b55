//! Laws of the commands of handles: each leaves a mesh sound, steady and fitting (g_access(9), g_bio(9)).
ghost use Rattle.geo_laws_handles.specs.CommandLaws.{GoesStayFirm, HandleCommandsStayFirm};
ghost use Rattle.geo_laws_handles.specs.LeftLaws.{CommandsLeftStayFirm};
ghost use Rattle.geo_laws_handles.specs.RequestLaws.{RecordsFillSectors, RequestsStayFirm};

/// A firm mesh stays firm where an actor takes its next command.
#[tactic(auto, using(crate::proofs::Left::commands_left_stay_firm))]
pub fn commands_left_stay_firm()
    ensures { CommandsLeftStayFirm }
{}

/// A firm mesh stays firm where a request is asked for.
#[tactic(auto, using(crate::proofs::Requested::requests_stay_firm))]
pub fn requests_stay_firm()
    ensures { RequestsStayFirm }
{}

/// A record fills a sector.
#[tactic(auto, using(crate::proofs::Sectors::records_fill_sectors))]
pub fn records_fill_sectors()
    ensures { RecordsFillSectors }
{}

/// A firm mesh stays firm where a command of a handle is done.
#[tactic(auto, using(crate::proofs::Commanded::handle_commands_stay_firm))]
pub fn handle_commands_stay_firm()
    ensures { HandleCommandsStayFirm }
{}

/// A firm mesh stays firm where an actor does its next command, if it does where that command is done.
#[tactic(auto, using(crate::proofs::Commanded::goes_stay_firm))]
pub fn goes_stay_firm()
    ensures { GoesStayFirm }
{}
