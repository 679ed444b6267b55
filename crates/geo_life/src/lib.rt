//! How providers and geoms live: announced, spoiled, orphaned, withered, resized and washed (g_event(9),
//! g_wither_geom(9), g_access(9)).
//!
//! Each call says the model's function of the graph and of the events (the clauses `withered`, `spoiled`, `orphaned`
//! ..), over geo_mesh's `Topo` for any configuration and an `EventQueue`. It says that nothing else of the mesh
//! changes (most by `rest`: `RestStays`), and that stored counts and grants stay (most by `kept`: `CountsStay`). None
//! takes memory: the places of the queue are the caller's.
//!
//! - [`mark_spoiled`], [`spoil_at`], [`spoil`]: `spoil_at` takes one place, `spoil` one for each provider that gets
//!   an error.
//! - [`announce_risen`], [`announce_fallen`]: over the noted providers in order; no such note is left.
//! - [`offer_again`], [`resize`]; [`wither`], [`wither_unless_withering`], [`orphan`]: one place for each provider
//!   that gets an error.
//! - [`next_dying`]: the consumers of DEV at a provider, one after the other.
//! - [`wash_where`]: what can be washed, and None exactly where nothing can; [`wash`], [`drop_consumer`]: exactly
//!   that part goes, with the events of a provider.
//!
//! [`mark_spoiled`], [`spoil_at`], [`spoil`], [`announce_risen`], [`orphan`] and [`resize`] walk only over the
//! consumers that aren't DEV's, so they look at no handle; no clause bounds their steps. [`spoil`] asks for it that
//! no handle's consumer is marked (`AreHandlesUnmarked`), and the others but [`orphan`] that no taste made DEV
//! (`IsDevMade`). Each sound and steady world has both ([`handles_are_spared`]).
//!
//! Why so: one provider may carry thousands of handles, so these walks leave them out; a second walk for an automatic
//! DEV would be code that never runs.
//!
//! Only tested, in geo_tests_life: that there is memory, and marks, spoils, orphans and washes at a concrete type.
//! geo_moves calls it. Read `src/withers.rt` and `specs/Life.antt` first.
#![tactic(auto)]

mod above;
mod announces;
mod laws;
mod orphans;
mod resizes;
mod spoils;
mod washes;
mod withers;

pub use announces::{announce_fallen, announce_risen, offer_again};
pub use laws::{counts_are_stored, handles_are_spared, places_are_few};
pub use orphans::{next_dying, orphan};
pub use resizes::resize;
pub use spoils::{mark_spoiled, spoil, spoil_at};
pub use washes::{drop_consumer, wash, wash_where};
pub use withers::{wither, wither_unless_withering};
