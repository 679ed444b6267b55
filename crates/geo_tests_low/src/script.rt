use crate::same::assert_same;
use geo_model::{Command, DiskKind};
use geo_script::{ParseRefusal, Plan, parse};
use std::alloc::{AllocError, Global};
use std::process::Abort;
use std::test::Fail;

/// Lines behind a header of a disk and an actor, each with what becomes of the text.
const COMMANDS: &[u8] =
    b"ok: a open abcdefghijklmnop abcdefghijklmnopqrstuvwxyz/ABCDEFGHIJKLMNOPQRSTUVWXYZ.012345678 r9w9e9
ok: a open - _ r0w0e1
ok: a close h
ok: a read h 0 18446744073709551615
ok: a write h 18446744073709551615 00*65536
ok: a write h 0 0a*1 ff*9 00*65526
ok: a delete h 0 0
ok: a flush h
ok: a sync
ok: a settle
ok: a insert d9
ok: a pull d9
ok: a nop d0/s1.label 0 1 2
ok: a concat n p q r s t u v w x y z A B C D E
ok: a stripe n 1 p
ok: a stripe n 4294967295 p q r s t u v w x y z A B C D E
ok: a append n p
ok: a append abcdefghijklmnop abcdefghijklmnopqrstuvwxyz/ABCDEFGHIJKLMNOPQRSTUVWXYZ.012345678
ok: a destroy mbr p
ok: a destroy ebr g
ok: a destroy label p
ok: a destroy concat p
ok: a destroy stripe p
ok: a destroy nop p
ok: a label h n
ok: a relabel h n
ok: a relabel abcdefghijklmnop ABCDEFGHIJKLMNOP
ok: a mark h concat n 0 0 1
ok: a mark h concat n 4294967295 65535 16
ok: a mark h stripe n 0 7 2 1
ok: a mark h stripe n 0 7 2 4294967295
ok: a mesh
ok: actor b|b sync
ok: ram a 512 1
ok: # anything at all: \x01||a sync
4 Space: #|  
3 Space:  a sync
3 Space: a sync 
3 Space: a  sync
3 Byte: a\tsync
3 Byte: a  \x7f
3 Byte: \x80 sync
3 Actor: b sync
3 Actor: A sync x
3 Actor: b
3 Words: a
3 Word: a launch
3 Word: a Sync x
3 Words: a sync x
3 Words: a open h p
3 Words: a open h p r1w0e0 x
3 Name: a open abcdefghijklmnopq p r1w0e0
3 Name: a open h.1 p r1w0e0
3 Name: a open h abcdefghijklmnopqrstuvwxyz/ABCDEFGHIJKLMNOPQRSTUVWXYZ.0123456789 r1w0e0
3 Name: a open h p:1 r1w0e0
3 Name: a open h! p! x
3 Counts: a open h p r0w0e0
3 Counts: a open h p r1w0
3 Counts: a open h p r10w0e0
3 Counts: a open h p R1w0e0
3 Counts: a open h p r1w0e0e
3 Number: a read h 09 1
3 Number: a read h 00 1
3 Number: a read h 18446744073709551616 x
3 Number: a read h -1 1
3 Number: a read h 1k 1
3 Words: a read h 1
3 Name: a read h/1 x 1
3 Words: a write h 0
3 Number: a write h x 0g*1
3 Runs: a write h 0 0A*1
3 Runs: a write h 0 0g*1
3 Runs: a write h 0 0*1
3 Runs: a write h 0 00*
3 Runs: a write h 0 00*0
3 Runs: a write h 0 00*01
3 Runs: a write h 0 00-1
3 Runs: a write h 0 00*1 00*1
3 Runs: a write h 0 00*65537
3 Runs: a write h 0 00*65536 01*1
3 Runs: a write h 0 00*1 x
3 Words: a concat n
3 Words: a concat n p q r s t u v w x y z A B C D E F
3 Words: a concat n p q r s t u v w x y z A B C D E F!
3 Name: a concat n p q! s t u v w x y z A B C D E F G
3 Words: a stripe n 1
3 Range: a stripe n 0 p!
3 Range: a stripe n 4294967296 p
3 Number: a stripe n p 1
3 Words: a nop p 0 1
3 Number: a nop p 0 1 x y
3 Words: a append
3 Words: a append n
3 Words: a append n p q
3 Words: a append n p q!
3 Name: a append n.1 p!
3 Name: a append abcdefghijklmnopq p
3 Name: a append n p:1
3 Name: a append n abcdefghijklmnopqrstuvwxyz/ABCDEFGHIJKLMNOPQRSTUVWXYZ.0123456789 x
3 Word: a Append n p
3 Word: a destroy disk p
3 Word: a destroy EBR g
3 Word: a destroy eb g!
3 Words: a destroy ebr
3 Words: a destroy ebr g g
3 Name: a destroy ebr g!
3 Word: a destroy MBR p!
3 Name: a destroy mbr p!
3 Words: a label h
3 Name: a label h n.1
3 Words: a relabel
3 Words: a relabel h
3 Words: a relabel h n n
3 Name: a relabel h.1 n!
3 Name: a relabel h n.1
3 Name: a relabel h abcdefghijklmnopq x
3 Word: a relabels h n
3 Word: a mark h mirror n 0 0 1
3 Words: a mark h
3 Range: a mark h concat n 4294967296 0 1
3 Range: a mark h concat n 0 65536 x
3 Range: a mark h concat n 0 0 0
3 Range: a mark h concat n 0 0 17
3 Words: a mark h concat n 0 0 1 1
3 Words: a mark h stripe n 0 0 1
3 Range: a mark h stripe n 0 0 1 0
3 Range: a mark h stripe n 0 0 1 4294967296
3 Twice: ram d0 512 8
3 Twice: disk d0 512
3 Twice: actor a
4 Header: a sync|ram d1 512 8
4 Header: a sync|disk d1! 512
4 Header: a sync|actor
5 Actor: ||b sync";

/// Whole texts, each with what becomes of it.
const HEADERS: &[u8] = b"ok: 
ok: |
ok: #
ok: actor a
ok: ram d 512 1|
ok: ram d 512 131072
ok: ram d 4096 16384 later
ok: disk d 512
ok: disk d 4096 later|actor d
ok: ram 0 512 1|ram 1 512 1|ram 2 512 1|ram 3 512 1|ram 4 512 1|ram 5 512 1|ram 6 512 1|ram 7 512 1|disk 8 512|disk 9 512|disk a 512|disk b 512|disk c 512|disk d 512|disk e 512|disk f 512
17 Many: disk 0 512|disk 1 512|disk 2 512|disk 3 512|disk 4 512|disk 5 512|disk 6 512|disk 7 512|disk 8 512|disk 9 512|disk a 512|disk b 512|disk c 512|disk d 512|disk e 512|disk f 512|ram g 512 1
17 Twice: disk 0 512|disk 1 512|disk 2 512|disk 3 512|disk 4 512|disk 5 512|disk 6 512|disk 7 512|disk 8 512|disk 9 512|disk a 512|disk b 512|disk c 512|disk d 512|disk e 512|disk f 512|ram f 512 1
ok: actor 0|actor 1|actor 2|actor 3|actor 4|actor 5|actor 6|actor 7|actor 8|actor 9|actor a|actor b|actor c|actor d|actor e|actor f|f sync
17 Many: actor 0|actor 1|actor 2|actor 3|actor 4|actor 5|actor 6|actor 7|actor 8|actor 9|actor a|actor b|actor c|actor d|actor e|actor f|actor g
17 Twice: actor 0|actor 1|actor 2|actor 3|actor 4|actor 5|actor 6|actor 7|actor 8|actor 9|actor a|actor b|actor c|actor d|actor e|actor f|actor f
1 Actor: a
1 Words: ram
1 Words: ram d
1 Words: ram d 512
1 Range: ram d 513 1
1 Number: ram d 0512 1
1 Range: ram d 512 0
1 Range: ram d 512 131073
1 Range: ram d 4096 16385
1 Number: ram d 512 x
1 Word: ram d 512 1 never
1 Words: ram d 512 1 later x
1 Word: disk d 512 never x
1 Words: disk d 512 later later
1 Name: disk d.0 512
1 Words: actor
1 Words: actor a b
1 Name: actor abcdefghijklmnopq
1 Twice: actor ram
1 Twice: actor disk
1 Twice: actor actor
2 Twice: actor a|actor a
2 Twice: ram d 512 1|disk d 512 later
3 Name: #||disk . 512";

/// What becomes of a text: `ok`, or the line and the cause of its first fault.
fn answer(rt: &impl Abort, alloc: Global, text: &[u8]) -> Result<String, AllocError> {
    assert!(rt; text.len() < 10_000_000);
    match parse(alloc, text) {
        Ok(_) => String::from_str(alloc, "ok"),
        Err(ParseRefusal::Fault { line, cause }) => format!(in alloc; "{line} {cause:?}"),
        Err(ParseRefusal::NoMemory) => Err(AllocError),
    }
}

/// A text with `|` in place of each line feed, behind another one.
fn text_of(alloc: Global, front: &[u8], row: &[u8]) -> Result<Vec<u8>, AllocError> {
    let mut text = front.to_vec(alloc)?;
    add_row(&mut text, row)?;
    Ok(text)
}

/// Adds a row with `|` in place of each line feed.
fn add_row(text: &mut Vec<u8>, row: &[u8]) -> Result<(), AllocError> {
    for b in row {
        text.push(if *b == b'|' { b'\n' } else { *b })?;
    }
    Ok(())
}

/// Compares each row `ANSWER: TEXT` of a table with what becomes of the text behind this front.
fn compare_rows(rt: &impl Abort, alloc: Global, front: &[u8], table: &[u8]) -> Result<(), Fail> {
    for row in table.split(|b| *b == b'\n') {
        let Some(at) = row.iter().position(|b| *b == b':') else {
            panic!(rt; "a row without an answer")
        };
        assert!(rt; at + 2 <= row.len());
        let text = text_of(alloc, front, &row[at + 2..])?;
        let answer = answer(rt, alloc, text.as_slice())?;
        assert_same(rt, answer.as_bytes(), &row[..at]);
    }
    Ok(())
}

#[test]
fn commands_good_and_bad(rt: HostRuntime) -> Result<(), Fail> {
    compare_rows(&rt, rt.alloc(), b"ram d0 512 8\nactor a\n", COMMANDS)
}

#[test]
fn headers_good_and_bad(rt: HostRuntime) -> Result<(), Fail> {
    compare_rows(&rt, rt.alloc(), b"", HEADERS)
}

/// A text of lines of an actor: its header, and then a line so many times.
fn repeated(alloc: Global, line: &[u8], times: usize) -> Result<Vec<u8>, AllocError> {
    let mut text = b"actor a\n".to_vec(alloc)?;
    add_times(&mut text, line, times)?;
    Ok(text)
}

/// Adds a part so many times.
fn add_times(text: &mut Vec<u8>, part: &[u8], times: usize) -> Result<(), AllocError> {
    for _ in 0..times {
        text.extend_from_slice(part)?;
    }
    Ok(())
}

#[test]
fn lines_at_their_most(rt: HostRuntime) -> Result<(), Fail> {
    let alloc = rt.alloc();
    let most = repeated(alloc, b"a sync\n", 4095)?;
    assert_same(&rt, answer(&rt, alloc, most.as_slice())?.as_str(), "ok");
    let mut skipped = repeated(alloc, b"a sync\n", 4095)?;
    skipped.extend_from_slice(b"# more\n\n\n#")?;
    assert_same(&rt, answer(&rt, alloc, skipped.as_slice())?.as_str(), "ok");
    skipped.extend_from_slice(b"\nb")?;
    assert_same(
        &rt,
        answer(&rt, alloc, skipped.as_slice())?.as_str(),
        "4101 Lines",
    );
    let more = repeated(alloc, b"a sync\n", 4096)?;
    assert_same(
        &rt,
        answer(&rt, alloc, more.as_slice())?.as_str(),
        "4097 Lines",
    );
    let empty = repeated(alloc, b"\n", 5000)?;
    assert_same(&rt, answer(&rt, alloc, empty.as_slice())?.as_str(), "ok");
    Ok(())
}

/// What becomes of a line behind the header of an actor, whose front is written out and whose rest is one part so
/// many times.
fn long_line(
    rt: &impl Abort,
    alloc: Global,
    front: &[u8],
    part: &[u8],
    times: usize,
    end: &[u8],
) -> Result<(usize, String), AllocError> {
    let mut line = front.to_vec(alloc)?;
    add_times(&mut line, part, times)?;
    line.extend_from_slice(end)?;
    let len = line.len();
    Ok((len, answer_behind(rt, alloc, line.as_slice())?))
}

/// What becomes of a line behind the header of an actor.
fn answer_behind(rt: &impl Abort, alloc: Global, line: &[u8]) -> Result<String, AllocError> {
    let text = text_of(alloc, b"actor a\n", line)?;
    answer(rt, alloc, text.as_slice())
}

/// The length of a line, and what becomes of it.
fn assert_line(rt: &impl Abort, line: (usize, String), len: usize, answer: &str) {
    assert_same(rt, line.0, len);
    assert_same(rt, line.1.as_str(), answer);
}

#[test]
fn lines_at_their_longest(rt: HostRuntime) -> Result<(), Fail> {
    let alloc = rt.alloc();
    let name = b" abcdefghijklmnopqrstuvwxyz/ABCDEFGHIJKLMNOPQRSTUVWXYZ/012345";
    let names = long_line(&rt, alloc, b"a concat nn", name, 4, b"")?;
    assert_line(&rt, names, 255, "ok");
    let more = long_line(&rt, alloc, b"a concat nnn", name, 4, b"")?;
    assert_line(&rt, more, 256, "2 Long");
    let bad = long_line(&rt, alloc, b"a  concat n", name, 4, b"\t")?;
    assert_line(&rt, bad, 256, "2 Long");
    let runs = long_line(
        &rt,
        alloc,
        b"a write h 0 00*10 01*10 ",
        b"00*1 01*1 ",
        816,
        b"02*60000",
    )?;
    assert_line(&rt, runs, 8192, "ok");
    let longer = long_line(
        &rt,
        alloc,
        b"a write h 00 00*10 01*10 ",
        b"00*1 01*1 ",
        816,
        b"02*60000",
    )?;
    assert_line(&rt, longer, 8193, "2 Long");
    let third = long_line(&rt, alloc, b"a x write ", b"y", 246, b"")?;
    assert_line(&rt, third, 256, "2 Long");
    // The second word alone says how long a line may be.
    let header = long_line(&rt, alloc, b"ram write 512 8 ", b"y", 300, b"")?;
    assert_line(&rt, header, 316, "2 Word");
    let comment = long_line(&rt, alloc, b"#", b"y", 9000, b"")?;
    assert_line(&rt, comment, 9001, "ok");
    Ok(())
}

/// The plan has a disk in memory, and one of the shelf that comes later.
fn assert_disks(rt: &impl Abort, plan: &Plan) {
    let [ram, shelf] = plan.disks() else {
        panic!(rt; "two disks")
    };
    assert_same(
        rt,
        (ram.kind, ram.sector, ram.sectors, ram.later),
        (DiskKind::Ram, 512, 8, false),
    );
    assert_same(rt, ram.name.bytes(), b"d0".as_slice());
    assert_same(
        rt,
        (shelf.kind, shelf.sector, shelf.sectors, shelf.later),
        (DiskKind::Shelf, 4096, 0, true),
    );
}

/// The plan has two actors.
fn assert_actors(rt: &impl Abort, plan: &Plan) {
    let [first, second] = plan.actors() else {
        panic!(rt; "two actors")
    };
    assert_same(rt, first.bytes(), b"a".as_slice());
    assert_same(rt, second.bytes(), b"b".as_slice());
}

/// The plan has a write by the second actor, and a concat of two providers by the first.
fn assert_commands(rt: &impl Abort, plan: &Plan) {
    let [write, concat] = plan.commands() else {
        panic!(rt; "two commands")
    };
    assert_same(
        rt,
        (write.line, write.actor, concat.line, concat.actor),
        (7, 1, 8, 0),
    );
    let Command::Write {
        handle,
        offset: 7,
        bytes,
    } = &write.command
    else {
        panic!(rt; "a write")
    };
    assert_same(rt, handle.bytes(), b"h".as_slice());
    assert_same(rt, bytes.bytes(), [10, 10, 255].as_slice());
    let Command::Concat { providers, .. } = &concat.command else {
        panic!(rt; "a concat")
    };
    assert_same(rt, providers.items().len(), 2);
}

#[test]
fn a_plan_says_what_the_script_says(rt: HostRuntime) -> Result<(), Fail> {
    let text =
        b"#\nram d0 512 8\ndisk d1 4096 later\nactor a\nactor b\n\nb write h 7 0a*2 ff*1\na concat n p q";
    let plan = parse(rt.alloc(), text)?;
    assert_disks(&rt, &plan);
    assert_actors(&rt, &plan);
    assert_commands(&rt, &plan);
    let (disks, actors, commands) = plan.into_parts();
    assert_same(&rt, (disks.len(), actors.len(), commands.len()), (2, 2, 2));
    drop(disks);
    drop(actors);
    drop(commands);
    Ok(())
}
