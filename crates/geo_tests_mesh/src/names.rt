//! What no clause says: that there is memory, and numbers of one name at concrete names.
use crate::same::assert_same;
use geo_base::Name;
use geo_names::Names;
use std::test::Fail;

// The name of these bytes.
fn name(bytes: &[u8]) -> Result<Name, Fail> {
    Ok(Name::new(bytes).ok().ok_or("not a name")?)
}

// Three numbers, of which the first and the last have one name; the first goes. What is found then, by both names.
fn two_of_a_name(names: &mut Names) -> Result<[Option<u64>; 3], Fail> {
    names.reserve(3)?;
    let ada = name(b"ada0")?;
    let da = name(b"da0")?;
    let first = names.add(&ada);
    names.add(&da);
    names.add(&ada);
    names.remove(&ada, first);
    Ok([
        names.first_from(&ada, 0),
        names.last(&da),
        names.first_from(&da, 3),
    ])
}

#[test]
fn numbers_of_one_name_are_found_in_order(rt: HostRuntime) -> Result<(), Fail> {
    let mut names = Names::new(rt.alloc());
    assert_same(&rt, two_of_a_name(&mut names)?, [Some(3), Some(2), None]);
    Ok(())
}
