//! The live mesh for C: a handle, commands with tokens, what is due, what disks answered (geom(4), g_bio(9)).
//!
//! C makes a [`TzbCore`] of zeros and hands its address to each call. Contracts see a handle as the live mesh that it
//! holds, if it is open (`mesh_in`). An export takes the mesh out of the handle, makes one call of geo_tags, and puts
//! it back. Its clause is that call's own, with the number that C is told for the answer. No export has a `requires`,
//! so each may be called at any moment, in any order. After each refusal the handle holds what it held.
//!
//! - `tzb_core_open` (`Opens`): a handle that is open stays as it was. One that is closed holds what the header of the
//!   text begins, over the sizes of its disks, where the text is a script of fewer than 2^32 bytes and the sizes fit
//!   (`sizes_fit`, which decides it disk by disk). It is WRONG only where one of these isn't so, and `*fault` is then
//!   the line of the grammar's first fault, or 0 (`IsUnopened`). NO_MEMORY comes from reading a text, whose faults
//!   aren't known then, or where the sizes fit. `tzb_core_close`: the handle holds nothing.
//! - `tzb_core_open_handle`, `tzb_core_close_handle`, `tzb_core_submit_read`, `_write`, `_delete`, `_flush`,
//!   `tzb_core_insert`, `tzb_core_pull`: clause `given`: where all arguments have their forms the command is given
//!   (`Given`; for bytes `Written`). Clauses `wrong`, `wrong_handle`, `wrong_provider`, `wrong_counts`, `none`, `long`:
//!   where one of them hasn't it is WRONG, and nothing changes (`Refused`). There is no other case.
//! - `tzb_core_command`: the one command of a script is given as of its actor, and a text that is no script with one
//!   command is WRONG (`Commanded`).
//! - `tzb_core_next`: clause `turned`: the step that is due is made and told, and its bytes stand at the front of the
//!   buffer if there is room for them (`Turned`). Clause `room`: a buffer of less than a request's most bytes is
//!   refused.
//! - `tzb_core_due`: clause `told`: the step that the next turn makes, if one is due (`TellsDue`). Clause `same`.
//! - `tzb_core_answer_bytes`, `_done`, `_failed`: what a disk answered is delivered exactly where it may be
//!   (`Answered`, for bytes `AnsweredBytes`).
//! - `tzb_core_list`: clause `lists`: the text of the mesh stands in front of the buffer, or its length is told where
//!   there is too little room (`Lists`). Clause `same`: the mesh is as it was.
//! - `tzb_core_waiting`, `tzb_core_steps`, `tzb_core_generation`: how many requests wait, how many steps were made, and
//!   how many of these were of the graph; clause `same`.
//!
//! Owed by C and not checked (`c/tazbrev.h`): each pointer leads to as much memory as its length says and none overlap,
//! a handle is one of zeros or as the last call left it, and one call at a time has it. Not stated: that no bytes that
//! are told are longer than the buffer. That a box comes back from its pointer is proved by hand ([`geo_box_pointer`]).
//!
//! Run from C by `c/example.c`. Read `src/held.rt`, `src/commands.rt`, `src/turns.rt` and `specs/Calls.antt` first.
#![tactic(auto)]

mod codes;
mod commands;
mod event;
mod handle;
mod held;
mod listing;
mod numbers;
mod opening;
mod refusal;
mod sizes;
mod steps;
mod texts;
mod turns;

pub use event::TzbEvent;
pub use held::TzbCore;
pub use sizes::TzbSize;
pub use steps::TzbStep;
