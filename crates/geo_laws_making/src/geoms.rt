//! Laws of the commands of geoms: each keeps a firm mesh firm, one that is sound, steady and fitting (geom(4)).
ghost use Rattle.geo_laws_making.specs.GeomLaws.{ConcatsStayFirm, DestroysStayFirm, InsertsStayFirm, NopsStayFirm, PullsStayFirm, StripesStayFirm};

/// A firm mesh stays firm where a disk is pulled.
#[tactic(auto, using(crate::proofs::Pulled::pulls_stay))]
pub fn pulls_stay_firm()
    ensures { PullsStayFirm }
{}

/// A firm mesh stays firm where a geom is destroyed.
#[tactic(auto, using(crate::proofs::Pulled::destroys_stay))]
pub fn destroys_stay_firm()
    ensures { DestroysStayFirm }
{}

/// A firm mesh stays firm where a disk of the header is inserted.
#[tactic(auto, using(crate::proofs::Inserted::inserts_stay))]
pub fn inserts_stay_firm()
    ensures { InsertsStayFirm }
{}

/// A firm mesh stays firm where a nop is made.
#[tactic(auto, using(crate::proofs::Nopped::nops_stay))]
pub fn nops_stay_firm()
    ensures { NopsStayFirm }
{}

/// A firm mesh stays firm where a concat is made.
#[tactic(auto, using(crate::proofs::Joined::concats_stay))]
pub fn concats_stay_firm()
    ensures { ConcatsStayFirm }
{}

/// A firm mesh stays firm where a stripe is made.
#[tactic(auto, using(crate::proofs::Joined::stripes_stay))]
pub fn stripes_stay_firm()
    ensures { StripesStayFirm }
{}
