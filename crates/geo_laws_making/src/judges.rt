//! Laws of the step of a taste: it keeps a firm world firm, one that is sound, steady and fitting (geom(4)).
ghost use Rattle.geo_laws_making.specs.ChainSteps.{LinksStayInOrder};
ghost use Rattle.geo_laws_making.specs.JudgeLaws.{JudgesStayFirm};

/// A link that leads on leaves the chain of a taste in order.
#[tactic(auto, using(crate::proofs::Firsts::links_stay_in_order))]
pub fn links_stay_in_order()
    ensures { LinksStayInOrder }
{}

/// A step of a taste leaves a firm world firm.
#[tactic(auto, using(crate::proofs::Judging::judges_stay_firm))]
pub fn judges_stay_firm()
    ensures { JudgesStayFirm }
{}
