//! The running access counts of g_access(9): what a demand at a provider does to the counts of all that stands below
//! it, and what refuses it.
//!
//! All is said of the view of geo_mesh's `Topo`, for any configuration; [`Steps`] is seen as a number. Each call
//! keeps `IsCounted`: the stored counts are the model's sums, exclusive and within the limit. Counts alone tell whether
//! something refuses a demand. The consumers at a provider are searched only where a refusal names two of them, or
//! where a count that is tried reached the greatest number of its type.
//!
//! [`allowed`], [`could_grant`] and [`grant`] answer exactly the model's refusal, in its order (`answer`). They name
//! the errored provider with the smallest number, the writer and the exclusive consumer, or the provider past the
//! limit (`named`). After a refusal the whole view is as before (`same`). After [`grant`] and [`release`] every count
//! is the model's, and exactly the providers are noted whose write count left zero or came to it (`risen`, `fallen`).
//! [`next_risen`] and [`next_fallen`] hand out the least noted provider and drop its note alone. [`join`] attaches a
//! consumer while its geom may be open. It answers exactly the model's refusal of a join, and names what the others
//! name. Else the graph has the consumer, every count is the model's, and exactly the risen are noted (`joined`).
//!
//! No call takes memory. `bound` counts the steps that the body ticks: at most one for each consumer that belongs to
//! a geom of a provider reached downwards, and for [`join`] one more. A consumer just made meets the conditions of
//! [`join`] ([`new_consumers_may_join`]), and a mesh in which nothing is open those of all calls
//! ([`shut_meshes_are_counted`], [`meshes_stay_shut`]). A consumer that was made, refused and taken away again,
//! attached in between or not, leaves nothing but a number that is used up, and all counts are kept. One of DEV or
//! TASTE that joined only was attached ([`refused_consumers_go`] says both).
//!
//! Why so: others hold an exclusive count beside a writer just where its provider would have more of them than the
//! writer has, so counts tell a refusal, and no list of writers is kept. What is tried are gains, which stop at the
//! greatest number of their type; the limit is far below, so a gain that stops is refused. A join attaches, and
//! detaches again where the counts refuse it, since a loop and too great a rank are told first.
//!
//! Only tested, in geo_tests_core: that meshes can be built so far that the calls decide something. geo_life,
//! geo_taste and geo_moves call it. Read `src/access.rt` and `specs/Access.antt` first.
#![tactic(auto)]

mod access;
mod counts;
mod decide;
mod finish;
mod joins;
mod judge;
mod laws;
mod notes;
mod order;
mod refusal;
mod spread;
mod steps;
mod walk;

pub use access::{allowed, could_grant, grant, release};
pub use counts::is_zero;
pub use joins::join;
pub use laws::{
    meshes_stay_shut, new_consumers_may_join, refused_consumers_go, shut_meshes_are_counted,
};
pub use notes::{next_fallen, next_risen};
pub use refusal::{GrantRefusal, JoinRefusal};
pub use steps::Steps;
pub use walk::{consumer_at, consumer_of, provider_of};
