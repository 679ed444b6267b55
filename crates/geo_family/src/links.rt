//! Reads and writes of one link or of one parent's ends.
ghost use Rattle.std.specs.Prelude.{◌≡◌, ◌<◌, ◌+◌, IfSome, None, Some};
ghost use Rattle.geo_slots.specs.Slots.{IsRising};
ghost use Rattle.geo_family.specs.Nearest.{IsNearest, Down, IsOnWayUp};
ghost use Rattle.geo_family.specs.Family.{first_child, last_child};
ghost use Rattle.geo_family.specs.Links.{part_at, parent_of, before_of, after_of, first_in_ends, last_in_ends, with_after, with_before, with_first, with_last_child, with_child_link, child_after, previous_of, IsFamily, IsOrderly, child_rows};

use crate::family::{Ends, Link};
use geo_slots::Slots;

/// The parent of a child.
pub fn parent_at(links: &Slots<Link>, child: u64) -> Option<u64>
    ensures parent { result ≡ part_at parent_of links.now.rows child }
    ensures rising { IsRising 1 links.now.rows links.now.next }
{
    links.get(child)?.parent
}

/// The child before a child.
pub fn before_at(links: &Slots<Link>, child: u64) -> Option<u64>
    ensures { result ≡ part_at before_of links.now.rows child }
{
    links.get(child)?.before
}

/// The child after a child.
pub fn after_at(links: &Slots<Link>, child: u64) -> Option<u64>
    ensures { result ≡ part_at after_of links.now.rows child }
{
    links.get(child)?.after
}

/// The first child of a parent.
pub fn first_at(ends: &Slots<Ends>, parent: u64) -> Option<u64>
    ensures { result ≡ part_at first_in_ends ends.now.rows parent }
{
    ends.get(parent)?.first
}

/// The last child of a parent.
pub fn last_at(ends: &Slots<Ends>, parent: u64) -> Option<u64>
    ensures { result ≡ part_at last_in_ends ends.now.rows parent }
{
    ends.get(parent)?.last
}

/// Another number after a child that may be there.
pub fn set_after(links: &mut Slots<Link>, child: Option<u64>, to: Option<u64>)
    ensures { links.new ≡ record links.old { rows = with_after child to links.old.rows } }
{
    let Some(number) = child else {
        return;
    };
    if let Some(link) = links.get_mut(number) {
        link.after = to;
    }
}

/// Another number before a child that may be there.
pub fn set_before(links: &mut Slots<Link>, child: Option<u64>, to: Option<u64>)
    ensures { links.new ≡ record links.old { rows = with_before child to links.old.rows } }
{
    let Some(number) = child else {
        return;
    };
    if let Some(link) = links.get_mut(number) {
        link.before = to;
    }
}

/// Another first child of a parent, where no child stands before.
pub fn set_first(ends: &mut Slots<Ends>, before: Option<u64>, parent: u64, to: Option<u64>)
    ensures { ends.new ≡ record ends.old { rows = with_first before parent to ends.old.rows } }
{
    if before.is_some() {
        return;
    }
    if let Some(end) = ends.get_mut(parent) {
        end.first = to;
    }
}

/// Another last child of a parent, where no child stands behind.
pub fn set_last(ends: &mut Slots<Ends>, behind: Option<u64>, parent: u64, to: Option<u64>)
    ensures { ends.new ≡ record ends.old { rows = with_last_child behind parent to ends.old.rows } }
{
    if behind.is_some() {
        return;
    }
    if let Some(end) = ends.get_mut(parent) {
        end.last = to;
    }
}

/// Another link of a child.
pub fn set_link(links: &mut Slots<Link>, child: u64, to: Link)
    ensures { links.new ≡ record links.old { rows = with_child_link child to links.old.rows } }
{
    if let Some(link) = links.get_mut(child) {
        *link = to;
    }
}

/// The child behind the one that may be there, else the first child of the parent.
pub fn behind(
    links: &Slots<Link>,
    ends: &Slots<Ends>,
    before: Option<u64>,
    parent: u64,
) -> Option<u64>
    ensures { result ≡ child_after links.now.rows ends.now.rows before parent }
{
    match before {
        Some(number) => after_at(links, number),
        None => first_at(ends, parent),
    }
}

/// The child in front of the one that may be there, else the last child of the parent.
fn in_front(links: &Slots<Link>, ends: &Slots<Ends>, after: Option<u64>, parent: u64) -> Option<u64>
    ensures { result ≡ previous_of links.now.rows ends.now.rows after parent }
{
    match after {
        Some(number) => before_at(links, number),
        None => last_at(ends, parent),
    }
}

/// The number before a number, if that is a child of the parent.
fn neighbour(links: &Slots<Link>, parent: u64, number: u64) -> Option<u64>
    ensures child { IfSome result (λ d. (d + 1 ≡ number) × (part_at parent_of links.now.rows d ≡ Some parent)) }
    ensures rising { IsRising 1 links.now.rows links.now.next }
{
    let below = number.saturating_sub(1);
    let is_child = parent_at(links, below) == Some(parent);
    if below < number && is_child {
        Some(below)
    } else {
        None
    }
}

/// The greatest child of a parent below a number that isn't its child. The walk goes inwards from both ends at once, so
/// it is no longer than the way from the nearer one; where the number before is a child, it begins behind that.
pub fn last_below(links: &Slots<Link>, ends: &Slots<Ends>, parent: u64, number: u64) -> Option<u64>
    requires family { IsFamily links.now.rows ends.now.rows }
    requires apart { part_at parent_of links.now.rows number ≡ None }
    ensures { IsNearest (λ d. d < number) Down (part_at parent_of links.now.rows) parent result }
{
    let mut low = neighbour(links, parent, number);
    let mut high = None;
    'inwards: loop {
        let last = in_front(links, ends, high, parent);
        if last.is_none_or(|child| child < number) {
            return last;
        }
        let first = behind(links, ends, low, parent);
        if first.is_none_or(|child| number <= child) {
            return low;
        }
        low = first;
        high = last;
    }
}

/// A child of a parent from which a walk up meets all that aren't below a number: the one behind the number below, if
/// that is a child of the parent, else the first.
fn start(links: &Slots<Link>, ends: &Slots<Ends>, parent: u64, number: u64) -> Option<u64>
    requires { IsFamily links.now.rows ends.now.rows }
    ensures way { IsOnWayUp (part_at parent_of links.now.rows) parent number result }
    ensures rising { IsRising 1 links.now.rows links.now.next }
{
    behind(links, ends, neighbour(links, parent, number), parent)
}

/// The least child of a parent that isn't below a number.
pub fn first_from(links: &Slots<Link>, ends: &Slots<Ends>, parent: u64, number: u64) -> Option<u64>
    requires { IsFamily links.now.rows ends.now.rows }
    ensures { result ≡ first_child (child_rows links.now.rows) parent number }
{
    let mut at = start(links, ends, parent, number);
    while let Some(child) = at {
        if number <= child {
            return Some(child);
        }
        at = after_at(links, child);
    }
    None
}

/// The greatest child of a parent.
pub fn last(links: &Slots<Link>, ends: &Slots<Ends>, parent: u64) -> Option<u64>
    requires { IsOrderly links.now.rows links.now.next ends.now.rows }
    ensures { result ≡ last_child (child_rows links.now.rows) parent }
{
    last_at(ends, parent)
}
