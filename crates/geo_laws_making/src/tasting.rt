//! Laws of tastes: each change of a taste keeps a firm world firm, one that is sound, steady and fitting (geom(4)).
ghost use Rattle.geo_laws_making.specs.TasteLaws.{TastesStayFirm};

/// A taste of which no read is out goes on, is granted a read, which is submitted, or ends, and its consumer goes.
#[tactic(auto, using(crate::proofs::Tastes::tastes_stay_firm))]
pub fn tastes_stay_firm()
    ensures { TastesStayFirm }
{}
