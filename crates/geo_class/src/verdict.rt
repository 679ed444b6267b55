//! What a class says to a provider that is tasted.
ghost use Rattle.std.specs.Prelude.{◌≡◌, ◌≤◌, ◌*◌, length};
ghost use Rattle.geo_model.specs.Kind.TheVariants as kinds;
ghost use Rattle.geo_model.specs.Acceptance.{is_other_size, judge, label_verdict, taste_where, verdict_of};
ghost use Rattle.geo_model.specs.declared.class.Shape.TheVariants.{Slices, Joined, Striped};
ghost use Rattle.geo_class.specs.Head.{decoder_answer};

use crate::{concat, label, mbr, stripe};
use geo_base::{DeclineCause, Declined, Kind};
use geo_model::{ConcatRecord, Facts, LabelRecord, MbrTable, Shape, StripeRecord, Verdict};

/// The size of the sectors that a partition table has.
const TABLE_SECTOR: u32 = 512;

/// The last sector, of two or more.
fn last_sector(facts: &Facts) -> Option<u64>
    ensures { result ≡ taste_where kinds.Label facts.now }
{
    if facts.sectors >= 2 {
        Some(facts.sectors - 1)
    } else {
        None
    }
}

/// The sector for which a class asks first: the first one for a partition table in sectors of 512 bytes, MBR on
/// anything but an MBR geom's provider and EBR on such a provider alone, and the last one for a record, where there
/// are two or more. None where the class doesn't look at the provider.
pub fn taste_where(kind: Kind, facts: &Facts) -> Option<u64>
    ensures { result ≡ taste_where kind facts.now }
{
    let is_table = facts.sector == TABLE_SECTOR;
    let is_slice = matches!(facts.kind, Kind::Mbr);
    match kind {
        Kind::Mbr if is_table && !is_slice => Some(0),
        Kind::Ebr if is_table && is_slice => Some(0),
        Kind::Label | Kind::Concat | Kind::Stripe => last_sector(facts),
        _ => None,
    }
}

/// Whether a label says a media size, and it isn't that of the tasted provider.
fn is_other_size(said: Option<u64>, facts: &Facts) -> bool
    ensures { result ≡ is_other_size said (facts.now.sectors * facts.now.sector) }
{
    match said {
        None => false,
        Some(said) => u128::from(said) != u128::from(facts.sectors) * u128::from(facts.sector),
    }
}

/// What MBR says to what it found.
fn verdict_on_table(found: Result<MbrTable, Declined>) -> Verdict
    ensures { result ≡ verdict_of Slices (decoder_answer found) }
{
    match found {
        Ok(table) => Verdict::Accept(Shape::Slices(table)),
        Err(declined) => Verdict::Decline(declined.cause),
    }
}

/// What LABEL says to what it found: a media size that isn't that of the tasted provider is declined.
fn verdict_on_label(found: Result<LabelRecord, Declined>, facts: &Facts) -> Verdict
    ensures { result ≡ label_verdict facts.now (decoder_answer found) }
{
    match found {
        Ok(record) => {
            if is_other_size(record.size, facts) {
                return Verdict::Decline(DeclineCause::Media);
            }
            Verdict::Accept(Shape::Named(record))
        }
        Err(declined) => Verdict::Decline(declined.cause),
    }
}

/// What CONCAT says to what it found.
fn verdict_on_concat(found: Result<ConcatRecord, Declined>) -> Verdict
    ensures { result ≡ verdict_of Joined (decoder_answer found) }
{
    match found {
        Ok(record) => Verdict::Accept(Shape::Joined(record)),
        Err(declined) => Verdict::Decline(declined.cause),
    }
}

/// What STRIPE says to what it found.
fn verdict_on_stripe(found: Result<StripeRecord, Declined>) -> Verdict
    ensures { result ≡ verdict_of Striped (decoder_answer found) }
{
    match found {
        Ok(record) => Verdict::Accept(Shape::Striped(record)),
        Err(declined) => Verdict::Decline(declined.cause),
    }
}

/// What a class says to the sector for which it asked, which has these bytes: `Accept` with what it found, or
/// `Decline` with the first cause. EBR judges a chain of sectors and not one; it declines here, as do the classes
/// that don't taste.
pub fn judge(kind: Kind, sector: &[u8], facts: &Facts) -> Verdict
    requires { 512 ≤ length sector.now }
    ensures { result ≡ judge kind sector.now facts.now }
{
    match kind {
        Kind::Mbr => verdict_on_table(mbr::decode(sector, facts.sectors)),
        Kind::Label => verdict_on_label(label::decode(sector), facts),
        Kind::Concat => verdict_on_concat(concat::decode(sector)),
        Kind::Stripe => verdict_on_stripe(stripe::decode(sector)),
        _ => Verdict::Decline(DeclineCause::Magic),
    }
}
