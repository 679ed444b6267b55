//! Laws of an append, and of each command of geoms: it keeps a firm mesh firm, one that is sound, steady and
//! fitting (geom(4), g_resize_provider(9)).
ghost use Rattle.geo_laws_making.specs.AppendLaws.{AppendsStayFirm};
ghost use Rattle.geo_laws_making.specs.GeomCommandLaws.{GeomCommandsStayFirm};

/// A firm mesh stays firm where a concat gets one more component.
#[tactic(auto, using(crate::proofs::Appended::appends_stay))]
pub fn appends_stay_firm()
    ensures { AppendsStayFirm }
{}

/// A firm mesh stays firm with each command of geoms.
#[tactic(auto, using(crate::proofs::Commanded::geom_commands_stay))]
pub fn geom_commands_stay_firm()
    ensures { GeomCommandsStayFirm }
{}
