//! The rows of `tests/` with other words, or with a text that is refused. `tests/rows --write` makes this file.
use crate::rows::Row;

pub const OTHER_ROWS: [Row; 23] = [
    Row {
        name: "all-counts-zero",
        words: &["step"],
        status: 2,
        text: b"ram md0 512 4
actor a
a open h md0 r0w0e0
",
        told: b"line 3: counts
",
    },
    Row {
        name: "count-too-large",
        words: &["gen", "1", "4001"],
        status: 1,
        text: b"",
        told: b"usage: geomrun step | run | gen START COUNT | sweep | watch | trace | verify
",
    },
    Row {
        name: "disk-too-large",
        words: &["step"],
        status: 2,
        text: b"ram md0 4096 16385
actor a
",
        told: b"line 1: range
",
    },
    Row {
        name: "example-hasty-disk",
        words: &["verify"],
        status: 9,
        text: b"ram md0 512 8
actor a
a open h md0 r1w1e0
a write h 512 11*512
a read h 0 1024
a close h
% 0 event
% 0 judge
% 0 start 1
% 0 take 0 1
% 0 deliver 1 bytes 00*512
% 0 up 1
% 0 judge
% 0 judge
% 0 judge
% 0 start 2
% 0 take 0 2
% 0 deliver 2 bytes 00*512
% 0 up 2
% 0 judge
% 0 judge
% 0 start 3
% 0 take 0 3
% 0 deliver 3 bytes 00*512
% 0 up 3
% 0 judge
% 0 judge
% 0 start 4
% 0 take 0 4
% 0 deliver 4 bytes 00*512
% 0 up 4
% 0 judge
% 0 judge
% 0 go 0
% 0 event
% 0 go 0
% 0 take 0 5
% 0 start 5
% 0 deliver 5 done
% 0 up 5
% 0 go 0
% 0 start 6
% 0 take 0 6
% 0 deliver 6 bytes 00*512 11*512
% 0 up 6
% 0 go 0
% 0 event
% 0 judge
% 0 start 7
% 0 take 0 7
% 0 deliver 7 bytes 00*512
% 0 up 7
% 0 judge
% 0 judge
% 0 judge
% 0 start 8
% 0 take 0 8
% 0 deliver 8 bytes 00*512
% 0 up 8
% 0 judge
% 0 judge
% 0 start 9
% 0 take 0 9
% 0 deliver 9 bytes 00*512
% 0 up 9
% 0 judge
% 0 judge
% 0 start 10
% 0 take 0 10
% 0 deliver 10 bytes 00*512
% 0 up 10
% 0 judge
% 0 judge
% report
3 ok
4 ok
5 ok 00*512 11*512
6 ok
geom DISK md0 rank 1
  provider md0 size 4096 sector 512 r0w0e0
",
        told: b"no: line 37
",
    },
    Row {
        name: "example-lying-disk",
        words: &["verify"],
        status: 9,
        text: b"ram md0 512 8
actor a
a open h md0 r1w1e0
a write h 512 11*512
a read h 0 1024
a close h
% 0 event
% 0 judge
% 0 start 1
% 0 take 0 1
% 0 deliver 1 bytes 01*1 00*511
% 0 up 1
% 0 judge
% 0 judge
% 0 judge
% 0 start 2
% 0 take 0 2
% 0 deliver 2 bytes 01*1 00*511
% 0 up 2
% 0 judge
% 0 judge
% 0 start 3
% 0 take 0 3
% 0 deliver 3 bytes 01*1 00*511
% 0 up 3
% 0 judge
% 0 judge
% 0 start 4
% 0 take 0 4
% 0 deliver 4 bytes 01*1 00*511
% 0 up 4
% 0 judge
% 0 judge
% 0 go 0
% 0 event
% 0 go 0
% 0 start 5
% 0 take 0 5
% 0 deliver 5 done
% 0 up 5
% 0 go 0
% 0 start 6
% 0 take 0 6
% 0 deliver 6 bytes 01*1 00*511 11*512
% 0 up 6
% 0 go 0
% 0 event
% 0 judge
% 0 start 7
% 0 take 0 7
% 0 deliver 7 bytes 01*1 00*511
% 0 up 7
% 0 judge
% 0 judge
% 0 judge
% 0 start 8
% 0 take 0 8
% 0 deliver 8 bytes 01*1 00*511
% 0 up 8
% 0 judge
% 0 judge
% 0 start 9
% 0 take 0 9
% 0 deliver 9 bytes 01*1 00*511
% 0 up 9
% 0 judge
% 0 judge
% 0 start 10
% 0 take 0 10
% 0 deliver 10 bytes 01*1 00*511
% 0 up 10
% 0 judge
% 0 judge
% report
3 ok
4 ok
5 ok 00*512 11*512
6 ok
geom DISK md0 rank 1
  provider md0 size 4096 sector 512 r0w0e0
",
        told: b"no: report
",
    },
    Row {
        name: "example-ram-disk",
        words: &["verify"],
        status: 0,
        text: b"ram md0 512 8
actor a
a open h md0 r1w1e0
a write h 512 11*512
a read h 0 1024
a close h
% 0 event
% 0 judge
% 0 start 1
% 0 take 0 1
% 0 deliver 1 bytes 00*512
% 0 up 1
% 0 judge
% 0 judge
% 0 judge
% 0 start 2
% 0 take 0 2
% 0 deliver 2 bytes 00*512
% 0 up 2
% 0 judge
% 0 judge
% 0 start 3
% 0 take 0 3
% 0 deliver 3 bytes 00*512
% 0 up 3
% 0 judge
% 0 judge
% 0 start 4
% 0 take 0 4
% 0 deliver 4 bytes 00*512
% 0 up 4
% 0 judge
% 0 judge
% 0 go 0
% 0 event
% 0 go 0
% 0 start 5
% 0 take 0 5
% 0 deliver 5 done
% 0 up 5
% 0 go 0
% 0 start 6
% 0 take 0 6
% 0 deliver 6 bytes 00*512 11*512
% 0 up 6
% 0 go 0
% 0 event
% 0 judge
% 0 start 7
% 0 take 0 7
% 0 deliver 7 bytes 00*512
% 0 up 7
% 0 judge
% 0 judge
% 0 judge
% 0 start 8
% 0 take 0 8
% 0 deliver 8 bytes 00*512
% 0 up 8
% 0 judge
% 0 judge
% 0 start 9
% 0 take 0 9
% 0 deliver 9 bytes 00*512
% 0 up 9
% 0 judge
% 0 judge
% 0 start 10
% 0 take 0 10
% 0 deliver 10 bytes 00*512
% 0 up 10
% 0 judge
% 0 judge
% report
3 ok
4 ok
5 ok 00*512 11*512
6 ok
geom DISK md0 rank 1
  provider md0 size 4096 sector 512 r0w0e0
",
        told: b"yes
",
    },
    Row {
        name: "generator-of-nothing",
        words: &["gen", "1", "0"],
        status: 0,
        text: b"",
        told: b"commands 6
ok 6
ENOENT 0
EEXIST 0
EBADF 0
ENXIO 0
EPERM 0
EOVERFLOW 0
EBUSY 0
EINVAL 0
EIO 0
ELOOP 0
EDEEP 0
bytes 0
geoms 6
",
    },
    Row {
        name: "generator-of-three",
        words: &["gen", "1", "3"],
        status: 0,
        text: b"",
        told: b"commands 9
ok 7
ENOENT 0
EEXIST 0
EBADF 2
ENXIO 0
EPERM 0
EOVERFLOW 0
EBUSY 0
EINVAL 0
EIO 0
ELOOP 0
EDEEP 0
bytes 0
geoms 6
",
    },
    Row {
        name: "leading-zero",
        words: &["gen", "01", "3"],
        status: 1,
        text: b"",
        told: b"usage: geomrun step | run | gen START COUNT | sweep | watch | trace | verify
",
    },
    Row {
        name: "neighbouring-runs-alike",
        words: &["step"],
        status: 2,
        text: b"ram md0 512 4
actor a
a write h 0 00*256 00*256
",
        told: b"line 3: runs
",
    },
    Row {
        name: "no-image",
        words: &["step"],
        status: 5,
        text: b"disk d0 512
actor a
a open h d0 r1w0e0
a read h 0 512
",
        told: b"no disk d0
",
    },
    Row {
        name: "no-word",
        words: &[],
        status: 1,
        text: b"",
        told: b"usage: geomrun step | run | gen START COUNT | sweep | watch | trace | verify
",
    },
    Row {
        name: "sweep-by-places",
        words: &["sweep"],
        status: 0,
        text: b"ram md0 512 8
actor a
a open h md0 r1w1e0
a write h 2048 04*512
a write h 512 01*512
a flush h
a write h 0 aa*512
a sync
a read h 0 1024
",
        told: b"3 ok
4 ok
5 ok
6 ok
7 ok
8 ok
9 ok aa*512 01*512
geom DISK md0 rank 1
  provider md0 size 4096 sector 512 r1w1e0
",
    },
    Row {
        name: "sweep-leaves-the-write-out",
        words: &["sweep"],
        status: 0,
        text: b"ram md0 512 8
actor a
a open h md0 r1w1e0
a write h 0 00*450 a5*1 00*3 01*1 00*3 07*1 00*51 55*1 aa*1
a close h
a settle
a open p md0s1 r1w0e0
a read p 0 512
",
        told: b"3 ok
4 ok
5 EBUSY
6 ok
7 ENOENT
8 EBADF
geom DISK md0 rank 1
  provider md0 size 4096 sector 512 r1w1e0
",
    },
    Row {
        name: "sweep-with-a-sync",
        words: &["sweep"],
        status: 0,
        text: b"ram md0 512 8
actor a
a open h md0 r1w1e0
a write h 0 00*450 a5*1 00*3 01*1 00*3 07*1 00*51 55*1 aa*1
a sync
a close h
a settle
a open p md0s1 r1w0e0
a read p 0 512
",
        told: b"3 ok
4 ok
5 ok
6 ok
7 ok
8 ok
9 ok 00*512
geom DISK md0 rank 1
  provider md0 size 4096 sector 512 r1w0e1
geom MBR md0 rank 2
  provider md0s1 size 3584 sector 512 r1w0e0
  consumer md0 r1w0e1
",
    },
    Row {
        name: "two-spaces",
        words: &["step"],
        status: 2,
        text: b"ram md0 512 4
actor a
a sync
a  sync
",
        told: b"line 4: space
",
    },
    Row {
        name: "verify-no-step",
        words: &["verify"],
        status: 2,
        text: b"disk d 4096
actor a
% disk 1
% 0 event
% 0 jump
% 0 judge
% 0 judge
% 0 judge
% 0 judge
% 0 judge
% report
geom DISK d rank 1
  provider d size 4096 sector 4096 r0w0e0
",
        told: b"line 5: trace
",
    },
    Row {
        name: "verify-not-at-rest",
        words: &["verify"],
        status: 9,
        text: b"disk d 4096
actor a
% disk 1
% 0 event
% 0 judge
% 0 judge
% 0 judge
% 0 judge
% 0 judge
% report
geom DISK d rank 1
  provider d size 4096 sector 4096 r0w0e0
",
        told: b"no: not at rest
",
    },
    Row {
        name: "verify-other-report",
        words: &["verify"],
        status: 9,
        text: b"disk d 4096
actor a
% disk 1
% 0 event
% 0 judge
% 0 judge
% 0 judge
% 0 judge
% 0 judge
% 0 judge
% report
geom DISK d rank 1
  provider d size 4096 sector 4096 r1w0e0
",
        told: b"no: report
",
    },
    Row {
        name: "verify-step-not-possible",
        words: &["verify"],
        status: 9,
        text: b"disk d 4096
actor a
% disk 1
% 0 event
% 0 judge
% 0 judge
% 0 judge
% 0 judge
% 0 judge
% 0 judge
% 0 judge
% report
geom DISK d rank 1
  provider d size 4096 sector 4096 r0w0e0
",
        told: b"no: line 11
",
    },
    Row {
        name: "verify-yes",
        words: &["verify"],
        status: 0,
        text: b"disk d 4096
actor a
% disk 1
% 0 event
% 0 judge
% 0 judge
% 0 judge
% 0 judge
% 0 judge
% 0 judge
% report
geom DISK d rank 1
  provider d size 4096 sector 4096 r0w0e0
",
        told: b"yes
",
    },
    Row {
        name: "word-too-many",
        words: &["step", "step"],
        status: 1,
        text: b"",
        told: b"usage: geomrun step | run | gen START COUNT | sweep | watch | trace | verify
",
    },
    Row {
        name: "word-with-a-dash",
        words: &["--help"],
        status: 1,
        text: b"",
        told: b"usage: geomrun step | run | gen START COUNT | sweep | watch | trace | verify
",
    },
];
