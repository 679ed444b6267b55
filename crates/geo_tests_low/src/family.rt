//! What no clause says: that there is memory, and a family at work.
use crate::same::assert_same;
use geo_family::Family;

#[test]
fn a_family_is_made_where_memory_is_ample(rt: HostRuntime) {
    let mut family = Family::new(rt.alloc());
    family.reserve(1, 2).expect(&rt, "memory");
    let parent = family.add_parent();
    let child = family.add_child();
    assert_same(&rt, (parent, child), (1, 1));
    assert_same(&rt, family.first_from(parent, 0), None);
    assert_same(&rt, family.last(parent), None);
    family.unlink(child);
    family.remove_child(child);
    family.reserve(0, 2).expect(&rt, "memory");
    assert_same(&rt, family.add_child(), 2);
}
