//! Worked examples, computed from the definitions. No proof needs them: they show that the definitions say what was
//! meant.
ghost use Rattle.geo_nbd.specs.Worked.{WorkedBeginnings, WorkedOptions, WorkedReplies};

/// The greeting, the flags of clients, and heads of options.
pub fn beginnings()
    ensures { WorkedBeginnings }
{}

/// Options of a server with two exports, and their answers.
pub fn options()
    ensures { WorkedOptions }
{}

/// A request, and replies.
pub fn replies()
    ensures { WorkedReplies }
{}
