//! The script that is made from a number, as a text: the word `gen START COUNT`.
//!
//! [`make_script`] gives exactly the text that the definitions make from START and COUNT (`text`: the model's
//! `generated`). It is short enough to be parsed (`short`), and a script (`accepted`): a law of geo_laws_texts. Its
//! lines have a function each, with the model's text as its contract.
//!
//! geo_run calls it. Read `src/script.rt` first, then `Generator.antt` of geo_model.
#![tactic(auto)]

mod commands;
mod draws;
mod script;

pub use script::make_script;
