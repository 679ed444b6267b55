//! Laws of texts and of what stands in sectors. There is no code: each function has an empty body, and its contract
//! is the law.
//!
//! - [`chains`]: a media has the table of a chain exactly where its links stand at sectors that are one
//!   ([`chains::chains_are_read`]).
//! - [`labels`]: which labels of both versions are accepted ([`labels::labels_are_judged`]), and that both make the
//!   same geom ([`labels::versions_make_the_same`]).
//! - [`records`]: which places and stripe sizes are declined ([`records::places_are_judged`],
//!   [`records::stripe_sizes_are_judged`]).
//! - [`generator`]: the text made from an admitted number is a script of four disks, four actors, and six commands in
//!   front of those that were asked for ([`generator::generated_texts_are_scripts`]).
//! - [`naming`]: where a legal log leads, each provider has a name that is one ([`naming::legal_logs_have_names`]).
//!
//! geo_gen and geo_run need the generator's law, geo_core and geo_moves that of names, geo_taste and
//! geo_laws_making those of sectors; geo_laws_scripts and geo_laws_traces need how numbers are written. Read
//! `specs/GeneratorLaws.antt` and `specs/Naming.antt` first.
#![tactic(auto)]

pub mod chains;
pub mod generator;
pub mod labels;
pub mod naming;
pub mod records;
