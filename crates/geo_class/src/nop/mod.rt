//! The class NOP: a window of a provider, which fails some of its requests where it is told to (gnop(8)).
//!
//! A [`NopMap`] is seen as its window. [`hits`] is exact (`is_hit`): which request of a geom that is told to fail each
//! of a number fails. That a failing request is counted and bounced is the work of geo_moves.
mod failing;
mod nop_map;

pub use failing::hits;
pub use nop_map::NopMap;
