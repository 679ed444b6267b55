//! Laws of what is accepted: what a class makes of a tasted provider keeps a firm mesh firm, one that is sound,
//! steady and fitting (geom(4)).
ghost use Rattle.geo_laws_making.specs.AcceptLaws.{AcceptsStayFirm, LabelsStayFirm, PartitionsStayFirm, PlacesStayFirm, SlicesStayFirm};

/// A firm mesh stays firm with a label that is accepted.
#[tactic(auto, using(crate::proofs::Accepts::labels_stay))]
pub fn labels_stay_firm()
    ensures { LabelsStayFirm }
{}

/// A firm mesh stays firm with the slices of a table that is accepted.
#[tactic(auto, using(crate::proofs::Parted::slices_stay))]
pub fn slices_stay_firm()
    ensures { SlicesStayFirm }
{}

/// A firm mesh stays firm with the logical partitions of a chain that is accepted.
#[tactic(auto, using(crate::proofs::Parted::partitions_stay))]
pub fn partitions_stay_firm()
    ensures { PartitionsStayFirm }
{}

/// A firm mesh stays firm with a place of a concat or a stripe that is accepted, and with its completion.
#[tactic(auto, using(crate::proofs::PlacedInside::places_stay))]
pub fn places_stay_firm()
    ensures { PlacesStayFirm }
{}

/// A firm mesh stays firm with whatever is made of an accepted verdict.
#[tactic(auto, using(crate::proofs::Accepts::accepts_stay))]
pub fn accepts_stay_firm()
    ensures { AcceptsStayFirm }
{}
