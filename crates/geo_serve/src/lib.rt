//! Requests served by disks (g_bio(9)): exactly one call of the disk for each.
//!
//! Contracts see a drive of any kind as one record (`DriveView`, by `drive_view`): its sizes, its sectors if it tells
//! them, its faults, and what it was asked. Of a disk in memory it has besides which calls are to fail.
//!
//! [`serve`] keeps `Serves`: the answer fits the request (`fits`), a READ's bytes are those that the disk held
//! (`tells`), and the sectors afterwards are those that the request leaves (`held`). What the disk was asked and
//! answered is this request with this answer, and nothing else (`asked`). A failure is one fault more of the disk,
//! and nothing else is (`faults`). A disk in memory fails exactly at the calls that it is told to (`fails`). Sectors
//! that were whole stay whole, and as many. It asks that the request lies inside the disk (`CanServe`), which
//! geo_laws_disks gives of each Take.
//!
//! Along a log `IsServed` says the same of all that a drive did: it was asked exactly the requests whose answers the
//! log delivers, in its order, and has exactly their failures more.
//!
//! geo_drain and geo_jobs call it. Read `specs/Serve.antt` and `specs/Served.antt` first.
#![tactic(auto)]

mod serving;

pub use serving::serve;
