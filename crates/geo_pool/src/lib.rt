//! Bytes that came before, of which later ones may be a part, so that both share their memory.
//!
//! [`Pool::once`] gives the bytes that it gets: that is its only clause. No clause says that this saves memory;
//! docs/MEASURED.md has what was measured.
//!
//! geo_script and geo_verify use it for the bytes of `write` lines and of traces, geo_drain and geo_jobs for what disks
//! answer. Read `src/pool.rt`.
#![tactic(auto)]

mod pool;

pub use pool::Pool;
