//! The worked scripts of the tests, and the reports that are due of them.

/// Three disks in a stripe, of which seven sectors are written and read at once.
pub const STRIPE: &[u8] = b"ram md0 512 4
ram md1 512 4
ram md2 512 4
actor a
a stripe s 512 md0 md1 md2
a open h stripe/s r1w1e0
a write h 0 00*512 01*512 02*512 03*512 04*512 05*512 06*512
a read h 0 3584
a close h
a open k md0 r1w0e0
a read k 0 2048
";

pub const STRIPE_REPORT: &[u8] = b"5 ok
6 ok
7 ok
8 ok 00*512 01*512 02*512 03*512 04*512 05*512 06*512
9 ok
10 ok
11 ok 00*512 03*512 06*512 00*512
geom DISK md0 rank 1
  provider md0 size 2048 sector 512 r1w0e0
geom DISK md1 rank 1
  provider md1 size 2048 sector 512 r0w0e0
geom DISK md2 rank 1
  provider md2 size 2048 sector 512 r0w0e0
geom STRIPE s rank 2
  provider stripe/s size 6144 sector 512 r0w0e0
  consumer md0 r0w0e0
  consumer md1 r0w0e0
  consumer md2 r0w0e0
";

/// A read over a window that fails each request, and then over a disk that is pulled.
pub const NOP_FIRST: &[u8] = b"ram md0 512 4
ram md1 512 4
actor a
actor b
a nop md0 0 2048 1
a concat c md0.nop md1
a open h concat/c r1w0e0
a read h 0 4096
b pull md1
";

/// The same with the two the other way about.
pub const DISK_FIRST: &[u8] = b"ram md0 512 4
ram md1 512 4
actor a
actor b
a nop md0 0 2048 1
a concat c md1 md0.nop
a open h concat/c r1w0e0
a read h 0 4096
b pull md1
";

pub const NOP_FIRST_REPORT: &[u8] = b"5 ok
6 ok
7 ok
8 EIO
9 ok
geom DISK md0 rank 1
  provider md0 size 2048 sector 512 r0w0e0
geom NOP md0.nop rank 2
  provider md0.nop size 2048 sector 512 r0w0e0
  consumer md0 r0w0e0
";

pub const DISK_FIRST_REPORT: &[u8] = b"5 ok
6 ok
7 ok
8 ENXIO
9 ok
geom DISK md0 rank 1
  provider md0 size 2048 sector 512 r0w0e0
geom NOP md0.nop rank 2
  provider md0.nop size 2048 sector 512 r0w0e0
  consumer md0 r0w0e0
";

/// A disk gets a label, is tasted at the close, and is pulled by another actor.
pub const PULL: &[u8] = b"ram md0 512 4
actor a
actor b
a open h md0 r1w1e0
a label h vol
a close h
b pull md0
";

pub const PULL_REPORT: &[u8] = b"4 ok
5 ok
6 ok
7 ok
";

/// A disk gets a label, is tasted at the close, and is opened for writing by another actor.
pub const WRITER: &[u8] = b"ram md0 512 4
actor a
actor b
a open h md0 r1w1e0
a label h vol
a close h
b open k md0 r0w1e0
b mesh
b close k
";

pub const WRITER_REPORT: &[u8] = b"4 ok
5 ok
6 ok
7 ok
8 ok
geom DISK md0 rank 1
  provider md0 size 2048 sector 512 r0w1e0
9 ok
geom DISK md0 rank 1
  provider md0 size 2048 sector 512 r0w0e0
geom LABEL md0 rank 2
  provider label/vol size 1536 sector 512 r0w0e0
  consumer md0 r0w0e0
";

/// A read on a concat, which another actor makes grow.
pub const APPEND: &[u8] = b"ram md0 512 8
ram md1 512 4
actor a
actor b
a concat c md0
a open h concat/c r1w0e0
a read h 0 512
b append c md1
";

/// While the read is out the concat doesn't grow.
pub const NO_APPEND_REPORT: &[u8] = b"5 ok
6 ok
7 ok 00*512
8 EBUSY
geom DISK md0 rank 1
  provider md0 size 4096 sector 512 r1w0e1
geom DISK md1 rank 1
  provider md1 size 2048 sector 512 r0w0e0
geom CONCAT c rank 2
  provider concat/c size 4096 sector 512 r1w0e0
  consumer md0 r1w0e1
";

/// Once the read is back it does.
pub const APPEND_REPORT: &[u8] = b"5 ok
6 ok
7 ok 00*512
8 ok
geom DISK md0 rank 1
  provider md0 size 4096 sector 512 r1w0e1
geom DISK md1 rank 1
  provider md1 size 2048 sector 512 r1w0e1
geom CONCAT c rank 2
  provider concat/c size 6144 sector 512 r1w0e0
  consumer md0 r1w0e1
  consumer md1 r1w0e1
";

/// Two requests of an actor at a disk, its sync, and the settle of another actor.
pub const TWO_READS: &[u8] = b"ram md0 512 4
ram md1 512 4
actor a
actor b
a open h md0 r1w0e0
a read h 0 512
a read h 512 512
a sync
b settle
";

/// Two requests of an actor and one of another one, each of which waits for its own.
pub const SYNCS: &[u8] = b"ram md0 512 4
actor a
actor b
b open k md0 r1w0e0
a open h md0 r1w0e0
b read k 0 512
a read h 512 512
a read h 1024 512
a sync
b sync
";

pub const SYNCS_REPORT: &[u8] = b"4 ok
5 ok
6 ok 00*512
7 ok 00*512
8 ok 00*512
9 ok
10 ok
geom DISK md0 rank 1
  provider md0 size 2048 sector 512 r2w0e0
";

/// Two reads of a handle, whose disk another actor pulls.
pub const REAPED: &[u8] = b"ram md0 512 4
actor a
actor b
a open h md0 r1w0e0
a read h 0 512
a read h 512 512
b pull md0
a read h 0 512
a close h
";

pub const REAPED_REPORT: &[u8] = b"4 ok
5 ok 00*512
6 ENXIO
7 ok
8 ENXIO
9 ok
";

/// A concat that is put together from records on two disks, of which the second comes later.
pub const ASSEMBLY: &[u8] = b"ram md0 512 4
ram md1 512 4 later
actor a
a open h md0 r0w1e0
a mark h concat v 7 0 2
a close h
a mesh
a insert md1
a open h md1 r0w1e0
a mark h concat v 7 1 2
a close h
a open k concat/v r1w0e0
a read k 1024 1024
a close k
a pull md0
a open k concat/v r1w0e0
";

pub const ASSEMBLY_REPORT: &[u8] = b"4 ok
5 ok
6 ok
7 ok
geom DISK md0 rank 1
  provider md0 size 2048 sector 512 r0w0e0
geom CONCAT v rank 2
  consumer md0 r0w0e0
8 ok
9 ok
10 ok
11 ok
12 ok
13 ok 00*1024
14 ok
15 ok
16 ENOENT
geom DISK md1 rank 1
  provider md1 size 2048 sector 512 r0w0e0
";

/// Two actors work on a stripe over two disks of the shelf, of which one is pulled in the middle.
pub const USERS: &[u8] = b"disk ada0 512
disk ada1 512
actor root
actor user
root stripe fast 4096 ada0 ada1
root open s stripe/fast r1w1e0
root write s 0 11*4096 22*4096
user open u stripe/fast r1w0e0
user read u 4096 4096
user open v ada0 r1w1e0
root pull ada1
user read u 0 512
root close s
user close u
user open v ada0 r1w0e0
user read v 0 512
";

pub const USERS_REPORT: &[u8] = b"5 ok
6 ok
7 ok
8 ok
9 ok 22*4096
10 EPERM
11 ok
12 ENXIO
13 ok
14 ok
15 ok
16 ok 11*512
geom DISK ada0 rank 1
  provider ada0 size 1048576 sector 512 r1w0e0
";

/// The label of a disk of the shelf is opened and read.
pub const LABEL: &[u8] = b"disk d0 512
actor a
a open h label/vol r1w0e0
a read h 0 512
";

pub const LABEL_REPORT: &[u8] = b"3 ok
4 ok 00*512
geom DISK d0 rank 1
  provider d0 size 2048 sector 512 r1w0e1
geom LABEL d0 rank 2
  provider label/vol size 1536 sector 512 r1w0e0
  consumer d0 r1w0e1
";

/// The class LABEL couldn't read the label.
pub const NO_LABEL_REPORT: &[u8] = b"3 ENOENT
4 EBADF
geom DISK d0 rank 1
  provider d0 size 2048 sector 512 r0w0e0
";

/// The read of the actor failed.
pub const NO_READ_REPORT: &[u8] = b"3 ok
4 EIO
geom DISK d0 rank 1
  provider d0 size 2048 sector 512 r1w0e1
geom LABEL d0 rank 2
  provider label/vol size 1536 sector 512 r1w0e0
  consumer d0 r1w0e1
";

/// A write, a read, a delete, a flush and a read of the four sectors of a disk of the shelf.
pub const EACH: &[u8] = b"disk d0 512
actor a
a open h d0 r1w1e0
a write h 0 11*2048
a read h 0 2048
a delete h 0 1024
a flush h
a read h 0 2048
";

/// A disk that is read, and no `mesh` that could be shown.
pub const UNLISTED: &[u8] = b"ram md0 512 4
actor a
a open h md0 r1w0e0
a read h 0 512
a sync
";

pub const UNLISTED_REPORT: &[u8] = b"3 ok
4 ok 00*512
5 ok
geom DISK md0 rank 1
  provider md0 size 2048 sector 512 r1w0e0
";

/// The mesh before the first step.
pub const UNLISTED_VIEW: &[u8] = b"view 0
geom DISK md0 rank 1
  provider md0 size 2048 sector 512 r0w0e0
";

/// Two actors, each of which writes to a disk of the shelf of its own, so that each run in threads tells the same.
pub const WRITERS: &[u8] = b"disk ada0 512
disk ada1 512
actor root
actor user
root open h ada0 r1w1e0
root write h 0 11*4096
root sync
root close h
user open k ada1 r1w1e0
user write k 0 22*4096
user sync
user close k
";

pub const WRITERS_REPORT: &[u8] = b"5 ok
6 ok
7 ok
8 ok
9 ok
10 ok
11 ok
12 ok
geom DISK ada0 rank 1
  provider ada0 size 1048576 sector 512 r0w0e0
geom DISK ada1 rank 1
  provider ada1 size 1048576 sector 512 r0w0e0
";

/// Four actors on two disks, of which the second is pulled while its actors are at work.
pub const FOUR: &[u8] = b"ram md0 512 64
ram md1 512 64
actor p
actor q
actor r
actor s
p open h md0 r1w1e0
p write h 512 11*1024
p sync
p read h 512 1024
p sync
p delete h 512 512
p sync
p read h 512 1024
p sync
q open h md0 r1w1e0
q write h 10752 22*1024
q sync
q read h 10752 1024
q sync
r open h md1 r1w1e0
r write h 512 33*1024
r sync
r read h 512 1024
r sync
s open h md1 r1w1e0
s write h 10752 44*1024
s pull md1
s read h 10752 1024
";

/// What the report has of the actors of the first disk, whose lines come first.
pub const FOUR_FRONT: &[u8] = b"7 ok
8 ok
9 ok
10 ok 11*1024
11 ok
12 ok
13 ok
14 ok 00*512 11*512
15 ok
16 ok
17 ok
18 ok
19 ok 22*1024
20 ok
";

/// Two actors, each of which reads from a disk of its own.
pub const TWO_DISKS: &[u8] = b"ram md0 512 16
ram md1 512 16
actor a
actor b
a open h md0 r1w0e0
a read h 512 512
b open k md1 r1w0e0
b read k 512 512
";

pub const TWO_DISKS_REPORT: &[u8] = b"5 ok
6 ok 00*512
7 ok
8 ok 00*512
geom DISK md0 rank 1
  provider md0 size 8192 sector 512 r1w0e0
geom DISK md1 rank 1
  provider md1 size 8192 sector 512 r1w0e0
";

/// Two actors with three commands each, none of which waits.
pub const OPENS: &[u8] = b"ram md0 512 16
actor a
actor b
a open h md0 r1w0e0
a open i md0 r1w0e0
a open j md0 r1w0e0
b open k md0 r1w0e0
b open l md0 r1w0e0
b open m md0 r1w0e0
";

pub const OPENS_REPORT: &[u8] = b"4 ok
5 ok
6 ok
7 ok
8 ok
9 ok
geom DISK md0 rank 1
  provider md0 size 8192 sector 512 r6w0e0
";
