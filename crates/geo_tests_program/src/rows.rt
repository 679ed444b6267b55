//! What no clause says: most worked rows of `tests/` that need neither images nor threads, run over an outside in
//! memory.
use crate::other_rows::OTHER_ROWS;
use crate::outside::{Outside, outside_of, run_to_end_on, says};
use crate::step_rows::STEP_ROWS;
use std::alloc::Global;
use std::process::Abort;
use std::test::Fail;

/// A run of the program on these words: what it reads, the status that is due, and what it has to write.
pub struct Row {
    pub name: &'static str,
    pub words: &'static [&'static str],
    pub status: u8,
    pub text: &'static [u8],
    pub told: &'static [u8],
}

// The run of a row ends and tells what is due.
fn is_due(
    rt: &impl Abort,
    alloc: Global,
    outside: &mut Outside,
    row: &Row,
    number: u64,
) -> Result<(), Fail> {
    let end = run_to_end_on(rt, alloc, row.words, outside).ok_or("no memory")?;
    assert_eq!(rt; end.status, row.status, "{}", row.name);
    says(rt, outside, row.told, b"", number);
    Ok(())
}

// The same of an outside that is dropped then.
fn runs(rt: &impl Abort, alloc: Global, row: &Row, number: u64) -> Result<(), Fail> {
    let mut outside = outside_of(alloc, row.text)?;
    let answer = is_due(rt, alloc, &mut outside, row, number);
    drop(outside);
    answer
}

#[test]
fn each_script_tells_what_is_due(rt: HostRuntime) -> Result<(), Fail> {
    for (number, row) in STEP_ROWS.iter().enumerate() {
        runs(&rt, rt.alloc(), row, number as u64)?;
    }
    Ok(())
}

#[test]
fn other_words_and_texts_are_told_what_is_due(rt: HostRuntime) -> Result<(), Fail> {
    for (number, row) in OTHER_ROWS.iter().enumerate() {
        runs(&rt, rt.alloc(), row, number as u64)?;
    }
    Ok(())
}
