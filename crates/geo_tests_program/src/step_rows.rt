//! The rows of `tests/` in which a script is run in the fixed order. `tests/rows --write` makes this file.
use crate::rows::Row;

pub const STEP_ROWS: [Row; 24] = [
    Row {
        name: "a-disk-alone",
        words: &["step"],
        status: 0,
        text: b"ram md0 512 4
",
        told: b"geom DISK md0 rank 1
  provider md0 size 2048 sector 512 r0w0e0
",
    },
    Row {
        name: "assembly-from-records",
        words: &["step"],
        status: 0,
        text: b"ram md0 512 4
ram md1 512 4 later
actor a
a open h md0 r0w1e0
a mark h concat v 7 0 2
a close h
a mesh
a insert md1
a open h md1 r0w1e0
a mark h concat v 7 1 2
a close h
a open k concat/v r1w0e0
a read k 1024 1024
a close k
a pull md0
a open k concat/v r1w0e0
",
        told: b"4 ok
5 ok
6 ok
7 ok
geom DISK md0 rank 1
  provider md0 size 2048 sector 512 r0w0e0
geom CONCAT v rank 2
  consumer md0 r0w0e0
8 ok
9 ok
10 ok
11 ok
12 ok
13 ok 00*1024
14 ok
15 ok
16 ENOENT
geom DISK md1 rank 1
  provider md1 size 2048 sector 512 r0w0e0
",
    },
    Row {
        name: "boundaries-of-reads",
        words: &["step"],
        status: 0,
        text: b"ram md0 512 4
actor a
a open h md0 r1w0e0
a read h 1536 512
a read h 2048 512
a read h 1536 1024
a read h 0 0
a read h 0 513
a read h 1 512
a read h 0 33280
a read h 0 2048
a read k 0 512
a open h md0 r1w0e0
a open g md1 r1w0e0
a close g",
        told: b"3 ok
4 ok 00*512
5 EIO
6 EIO
7 EINVAL
8 EINVAL
9 EINVAL
10 EINVAL
11 ok 00*2048
12 EBADF
13 EEXIST
14 ENOENT
15 EBADF
geom DISK md0 rank 1
  provider md0 size 2048 sector 512 r1w0e0
",
    },
    Row {
        name: "boundaries-of-requests",
        words: &["step"],
        status: 0,
        text: b"ram md0 512 4
actor a
a open h md0 r1w0e0
a read h 1536 512
a read h 2048 512
a read h 1536 1024
a read h 0 0
a read h 0 513
a read h 1 512
a read h 0 33280
a read h 0 2048
a flush h
a read k 0 512
a open h md0 r1w0e0
",
        told: b"3 ok
4 ok 00*512
5 EIO
6 EIO
7 EINVAL
8 EINVAL
9 EINVAL
10 EINVAL
11 ok 00*2048
12 EPERM
13 EBADF
14 EEXIST
geom DISK md0 rank 1
  provider md0 size 2048 sector 512 r1w0e0
",
    },
    Row {
        name: "boundaries-with-insert",
        words: &["step"],
        status: 0,
        text: b"ram md0 512 4
actor a
a open h md0 r1w0e0
a read h 1536 512
a read h 2048 512
a read h 1536 1024
a read h 0 0
a read h 0 513
a read h 1 512
a read h 0 33280
a read h 0 2048
a flush h
a read k 0 512
a open h md0 r1w0e0
a insert md0
a insert md7
",
        told: b"3 ok
4 ok 00*512
5 EIO
6 EIO
7 EINVAL
8 EINVAL
9 EINVAL
10 EINVAL
11 ok 00*2048
12 EPERM
13 EBADF
14 EEXIST
15 EBUSY
16 ENOENT
geom DISK md0 rank 1
  provider md0 size 2048 sector 512 r1w0e0
",
    },
    Row {
        name: "chain-that-loops",
        words: &["step"],
        status: 0,
        text: b"ram md0 512 64
actor a
a open h md0 r1w1e0
a write h 0 00*450 05*1 00*3 01*1 00*3 3f*1 00*51 55*1 aa*1
a write h 512 00*450 a5*1 00*3 01*1 00*3 04*1 00*7 05*1 00*3 0a*1 00*3 05*1 00*35 55*1 aa*1
a write h 5632 00*450 a5*1 00*3 01*1 00*3 03*1 00*7 05*1 00*43 55*1 aa*1
a write h 6144 77*512
a close h
a open p md0s1l2 r1w0e0
a read p 0 512
",
        told: b"3 ok
4 ok
5 ok
6 ok
7 ok
8 ok
9 ENOENT
10 EBADF
geom DISK md0 rank 1
  provider md0 size 32768 sector 512 r0w0e0
geom MBR md0 rank 2
  provider md0s1 size 32256 sector 512 r0w0e0
  consumer md0 r0w0e0
",
    },
    Row {
        name: "concat",
        words: &["step"],
        status: 0,
        text: b"ram md0 512 3
ram md1 512 5
actor a
a concat c md0 md1
a open h concat/c r1w1e0
a write h 1024 aa*512 bb*512 cc*1024
a read h 1024 2048
a close h
a open k md1 r1w0e0
a read k 0 2048
",
        told: b"4 ok
5 ok
6 ok
7 ok aa*512 bb*512 cc*1024
8 ok
9 ok
10 ok bb*512 cc*1024 00*512
geom DISK md0 rank 1
  provider md0 size 1536 sector 512 r0w0e0
geom DISK md1 rank 1
  provider md1 size 2560 sector 512 r1w0e0
geom CONCAT c rank 2
  provider concat/c size 4096 sector 512 r0w0e0
  consumer md0 r0w0e0
  consumer md1 r0w0e0
",
    },
    Row {
        name: "diamond",
        words: &["step"],
        status: 0,
        text: b"ram md0 512 8
actor a
a open h md0 r1w1e0
a write h 0 00*450 a5*1 00*3 01*1 00*3 07*1 00*51 55*1 aa*1
a close h
a concat d md0s1 md0
a open w concat/d r0w1e0
a open r concat/d r1w0e0
",
        told: b"3 ok
4 ok
5 ok
6 ok
7 EPERM
8 ok
geom DISK md0 rank 1
  provider md0 size 4096 sector 512 r2w0e3
geom MBR md0 rank 2
  provider md0s1 size 3584 sector 512 r1w0e1
  consumer md0 r1w0e2
geom CONCAT d rank 3
  provider concat/d size 7680 sector 512 r1w0e0
  consumer md0s1 r1w0e1
  consumer md0 r1w0e1
",
    },
    Row {
        name: "empty-source",
        words: &["step"],
        status: 0,
        text: b"",
        told: b"",
    },
    Row {
        name: "exclusion",
        words: &["step"],
        status: 0,
        text: b"ram md0 512 4
actor a
actor b
a open h md0 r0w0e1
b open k md0 r0w1e0
b open m md0 r1w0e0
a close h
b open k md0 r1w1e1
b read k 0 512
",
        told: b"4 ok
5 EPERM
6 ok
7 ok
8 ok
9 ok 00*512
geom DISK md0 rank 1
  provider md0 size 2048 sector 512 r2w1e1
",
    },
    Row {
        name: "exclusive-bit-and-spoiling",
        words: &["step"],
        status: 0,
        text: b"ram md0 512 8
actor a
a open h md0 r0w1e0
a write h 0 00*450 a5*1 00*3 01*1 00*3 07*1 00*51 55*1 aa*1
a close h
a open p md0s1 r1w0e0
a open h md0 r0w1e0
a close p
a open h md0 r0w1e0
a open p md0s1 r1w0e0
a close h
a open p md0s1 r1w0e0
a close p
",
        told: b"3 ok
4 ok
5 ok
6 ok
7 EPERM
8 ok
9 ok
10 ENOENT
11 ok
12 ok
13 ok
geom DISK md0 rank 1
  provider md0 size 4096 sector 512 r0w0e0
geom MBR md0 rank 2
  provider md0s1 size 3584 sector 512 r0w0e0
  consumer md0 r0w0e0
",
    },
    Row {
        name: "hostile-slice-table",
        words: &["step"],
        status: 0,
        text: b"ram md0 512 64
actor a
a open h md0 r1w1e0
a write h 0 00*450 a5*1 00*3 08*1 00*3 38*1 00*7 a5*1 00*3 08*1 00*3 39*1 00*7 a5*1 00*7 04*1 00*7 a5*1 00*3 0a*1 00*3 04*1 00*3 55*1 aa*1
a close h
",
        told: b"3 ok
4 ok
5 ok
geom DISK md0 rank 1
  provider md0 size 32768 sector 512 r0w0e0
geom MBR md0 rank 2
  provider md0s1 size 28672 sector 512 r0w0e0
  provider md0s4 size 2048 sector 512 r0w0e0
  consumer md0 r0w0e0
",
    },
    Row {
        name: "label",
        words: &["step"],
        status: 0,
        text: b"ram md0 512 4
actor a
a open h md0 r1w1e0
a label h vol
a read h 1536 512
a close h
a open k label/vol r1w0e0
a read k 1024 512
a read k 1536 512
",
        told: b"3 ok
4 ok
5 ok 52*1 47*1 45*1 4f*1 4d*1 3a*2 4c*1 41*1 42*1 45*1 4c*1 00*4 01*1 00*3 76*1 6f*1 6c*1 00*489
6 ok
7 ok
8 ok 00*512
9 EIO
geom DISK md0 rank 1
  provider md0 size 2048 sector 512 r1w0e1
geom LABEL md0 rank 2
  provider label/vol size 1536 sector 512 r1w0e0
  consumer md0 r1w0e1
",
    },
    Row {
        name: "label-with-a-size",
        words: &["step"],
        status: 0,
        text: b"ram md0 512 8
actor a
a open h md0 r1w1e0
a write h 0 00*450 a5*1 00*3 01*1 00*3 07*1 00*51 55*1 aa*1
a close h
a open p md0s1 r1w1e0
a relabel p vol
a read p 3072 512
a close p
",
        told: b"3 ok
4 ok
5 ok
6 ok
7 ok
8 ok 52*1 47*1 45*1 4f*1 4d*1 3a*2 4c*1 41*1 42*1 45*1 4c*1 00*4 02*1 00*3 76*1 6f*1 6c*1 00*14 0e*1 00*474
9 ok
geom DISK md0 rank 1
  provider md0 size 4096 sector 512 r0w0e0
geom MBR md0 rank 2
  provider md0s1 size 3584 sector 512 r0w0e0
  consumer md0 r0w0e0
geom LABEL md0s1 rank 3
  provider label/vol size 3072 sector 512 r0w0e0
  consumer md0s1 r0w0e0
",
    },
    Row {
        name: "label-without-a-size",
        words: &["step"],
        status: 0,
        text: b"ram md0 512 8
actor a
a open h md0 r1w1e0
a write h 0 00*450 a5*1 00*3 01*1 00*3 07*1 00*51 55*1 aa*1
a close h
a open p md0s1 r1w1e0
a label p vol
a read p 3072 512
a close p
",
        told: b"3 ok
4 ok
5 ok
6 ok
7 ok
8 ok 52*1 47*1 45*1 4f*1 4d*1 3a*2 4c*1 41*1 42*1 45*1 4c*1 00*4 01*1 00*3 76*1 6f*1 6c*1 00*489
9 ok
geom DISK md0 rank 1
  provider md0 size 4096 sector 512 r0w0e0
geom MBR md0 rank 2
  provider md0s1 size 3584 sector 512 r0w0e0
  consumer md0 r0w0e0
geom LABEL md0 rank 2
  provider label/vol size 3584 sector 512 r0w0e0
  consumer md0 r0w0e0
",
    },
    Row {
        name: "logical-partitions",
        words: &["step"],
        status: 0,
        text: b"ram md0 512 64
actor a
a open h md0 r1w1e0
a write h 0 00*450 05*1 00*3 01*1 00*3 3f*1 00*51 55*1 aa*1
a write h 512 00*450 a5*1 00*3 01*1 00*3 04*1 00*7 05*1 00*3 0a*1 00*3 05*1 00*35 55*1 aa*1
a write h 5632 00*450 a5*1 00*3 01*1 00*3 03*1 00*51 55*1 aa*1
a write h 6144 77*512
a close h
a open p md0s1l2 r1w0e0
a read p 0 512
",
        told: b"3 ok
4 ok
5 ok
6 ok
7 ok
8 ok
9 ok
10 ok 77*512
geom DISK md0 rank 1
  provider md0 size 32768 sector 512 r1w0e2
geom MBR md0 rank 2
  provider md0s1 size 32256 sector 512 r1w0e1
  consumer md0 r1w0e2
geom EBR md0s1 rank 3
  provider md0s1l1 size 2048 sector 512 r0w0e0
  provider md0s1l2 size 1536 sector 512 r1w0e0
  consumer md0s1 r1w0e1
",
    },
    Row {
        name: "nop-window-and-failures",
        words: &["step"],
        status: 0,
        text: b"ram md0 512 4
actor a
a nop md0 512 1024 2
a open h md0.nop r1w0e0
a read h 0 512
a read h 0 512
a read h 512 512
a read h 1024 512
",
        told: b"3 ok
4 ok
5 ok 00*512
6 EIO
7 ok 00*512
8 EIO
geom DISK md0 rank 1
  provider md0 size 2048 sector 512 r1w0e0
geom NOP md0.nop rank 2
  provider md0.nop size 1024 sector 512 r1w0e0
  consumer md0 r1w0e0
",
    },
    Row {
        name: "open-concat-grows",
        words: &["step"],
        status: 0,
        text: b"ram md0 512 3
ram md1 512 5
ram md2 512 2
actor a
a concat c md0 md1
a open h concat/c r1w1e0
a write h 3584 11*512
a append c md2
a read h 3584 1536
a append c concat/c
a concat d concat/c
a append c concat/d
a append c md0
",
        told: b"5 ok
6 ok
7 ok
8 ok
9 ok 11*512 00*1024
10 ELOOP
11 ok
12 ELOOP
13 EPERM
geom DISK md0 rank 1
  provider md0 size 1536 sector 512 r1w1e1
geom DISK md1 rank 1
  provider md1 size 2560 sector 512 r1w1e1
geom DISK md2 rank 1
  provider md2 size 1024 sector 512 r1w1e1
geom CONCAT c rank 2
  provider concat/c size 5120 sector 512 r1w1e0
  consumer md0 r1w1e1
  consumer md1 r1w1e1
  consumer md2 r1w1e1
geom CONCAT d rank 3
  provider concat/d size 5120 sector 512 r0w0e0
  consumer concat/c r0w0e0
",
    },
    Row {
        name: "pull",
        words: &["step"],
        status: 0,
        text: b"ram md0 512 8
actor a
actor b
a open h md0 r1w1e0
a write h 0 00*450 a5*1 00*3 01*1 00*3 07*1 00*51 55*1 aa*1
a close h
a settle
a open p md0s1 r1w0e0
a read p 0 512
b pull md0
a settle
a read p 0 512
a close p
",
        told: b"4 ok
5 ok
6 ok
7 ok
8 ok
9 ok 00*512
10 ok
11 ok
12 ENXIO
13 ok
",
    },
    Row {
        name: "slice-appears-when-the-concat-grows",
        words: &["step"],
        status: 0,
        text: b"ram md0 512 8
ram md1 512 4
actor a
a concat c md0
a open h concat/c r0w1e0
a write h 0 00*450 a5*1 00*3 01*1 00*3 07*1 00*7 a5*1 00*3 08*1 00*3 04*1 00*35 55*1 aa*1
a close h
a open p concat/cs2 r1w0e0
a append c md1
a open p concat/cs2 r1w0e0
a read p 0 2048
",
        told: b"4 ok
5 ok
6 ok
7 ok
8 ENOENT
9 ok
10 ok
11 ok 00*2048
geom DISK md0 rank 1
  provider md0 size 4096 sector 512 r1w0e2
geom DISK md1 rank 1
  provider md1 size 2048 sector 512 r1w0e2
geom CONCAT c rank 2
  provider concat/c size 6144 sector 512 r1w0e1
  consumer md0 r1w0e2
  consumer md1 r1w0e2
geom MBR md0 rank 2
  provider md0s1 size 3584 sector 512 r0w0e0
  consumer md0 r0w0e0
geom MBR concat/c rank 3
  provider concat/cs1 size 3584 sector 512 r0w0e0
  provider concat/cs2 size 2048 sector 512 r1w0e0
  consumer concat/c r1w0e1
",
    },
    Row {
        name: "slice-found-on-write-close",
        words: &["step"],
        status: 0,
        text: b"ram md0 512 8
actor a
a open h md0 r1w1e0
a write h 0 00*450 a5*1 00*3 01*1 00*3 07*1 00*51 55*1 aa*1
a close h
a settle
a open p md0s1 r1w0e0
a read p 0 512
",
        told: b"3 ok
4 ok
5 ok
6 ok
7 ok
8 ok 00*512
geom DISK md0 rank 1
  provider md0 size 4096 sector 512 r1w0e1
geom MBR md0 rank 2
  provider md0s1 size 3584 sector 512 r1w0e0
  consumer md0 r1w0e1
",
    },
    Row {
        name: "smallest-run",
        words: &["step"],
        status: 0,
        text: b"ram md0 512 4
actor a
a open h md0 r1w0e0
a read h 0 512
a sync
a close h
",
        told: b"3 ok
4 ok 00*512
5 ok
6 ok
geom DISK md0 rank 1
  provider md0 size 2048 sector 512 r0w0e0
",
    },
    Row {
        name: "stripe",
        words: &["step"],
        status: 0,
        text: b"ram md0 512 4
ram md1 512 4
ram md2 512 4
actor a
a stripe s 512 md0 md1 md2
a open h stripe/s r1w1e0
a write h 0 00*512 01*512 02*512 03*512 04*512 05*512 06*512
a read h 0 3584
a close h
a open k md0 r1w0e0
a read k 0 2048
",
        told: b"5 ok
6 ok
7 ok
8 ok 00*512 01*512 02*512 03*512 04*512 05*512 06*512
9 ok
10 ok
11 ok 00*512 03*512 06*512 00*512
geom DISK md0 rank 1
  provider md0 size 2048 sector 512 r1w0e0
geom DISK md1 rank 1
  provider md1 size 2048 sector 512 r0w0e0
geom DISK md2 rank 1
  provider md2 size 2048 sector 512 r0w0e0
geom STRIPE s rank 2
  provider stripe/s size 6144 sector 512 r0w0e0
  consumer md0 r0w0e0
  consumer md1 r0w0e0
  consumer md2 r0w0e0
",
    },
    Row {
        name: "two-readers-of-large-sectors",
        words: &["step"],
        status: 0,
        text: b"ram big_disk-1 4096 16384
actor user
user open a big_disk-1 r1w0e0
user open b big_disk-1 r1w0e0
user read b 67104768 4096
user close a
",
        told: b"3 ok
4 ok
5 ok 00*4096
6 ok
geom DISK big_disk-1 rank 1
  provider big_disk-1 size 67108864 sector 4096 r1w0e0
",
    },
];
