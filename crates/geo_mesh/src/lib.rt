//! Geoms, providers and consumers, and their ranks (geom(4), g_attach(9)).
//!
//! Contracts see a [`Topo`] as the model's topology, with stored counts, active requests, notes, scratch and room
//! (`TopoView`), for any configuration of a class. The index, the names and the stored ranks beside its tables show
//! in no contract.
//!
//! Every call is the model's change of one thing and leaves all else. [`Topo::rank`] is the model's rank.
//! [`Topo::attach`] is refused exactly by the model's rule (ENXIO, ELOOP, EDEEP), and then nothing changed.
//! [`Topo::find`] is the model's `find_provider`. [`Topo::set_size`] lets a provider grow. Look-ups also tell that
//! the graph is sound (`IsSoundGraph`). Numbers rise, begin with 1 and fit in 64 bits. What a part names lives. There
//! is no loop, and no geom but DEV and TASTE is above rank 32; these two stand and have no provider. Providers
//! without an error differ in name, and each has the sizes of a provider. So a layer above can prove that its walks
//! end and meet what is there.
//!
//! How it works, which no clause says: attach and detach mend the ranks above without memory, and those of DEV and
//! TASTE are found when they are asked for, so handles cost no walk. A geom's parts, a provider's users and a name
//! are found without a walk over the tables. So are the least noted provider ([`Topo::first_risen`],
//! [`Topo::first_fallen`]) and the next withering geom of which something can go ([`Topo::next_going`], exact by
//! `can_go`). The next consumer that isn't DEV's ([`Topo::above`]) is found without a walk over the handles, and the
//! next geom of a class and a name ([`Topo::next_named`]) among those of the name.
//!
//! Why so: an attach raises the ranks above ahead of its edge, so a loop is met where the geom would reach itself, and
//! a refused attach lowers them again. DEV and TASTE have no provider, so no rank stands on theirs and none is kept for
//! them. The inside (`Tables`) has no Model, since a definition that a Model cites can't take the struct that has it.
//!
//! Only tested, in geo_tests_mesh: that the calls which allocate succeed with ample memory. Counts come from
//! geo_access, the rest from geo_life and the steps. Read `src/topo.rt` first, then `specs/Mesh.antt`.
#![tactic(auto)]

mod going;
mod index;
mod marks;
mod named;
mod names;
mod ranks;
mod records;
mod tables;
mod topo;

pub use records::{AttachRefusal, ConsRec, GeomRec, ProvRec, Scratch};
pub use topo::Topo;
