//! The grammar of scripts: the plan of a text, or the line and the cause of its first fault. The readers of single
//! words serve other grammars of lines too.
//!
//! Contracts see a [`Plan`] as its disks in header order, its actors and its commands in rising order of lines, and
//! [`Words`] as the words that are left of a line, which isn't copied. Each [`Plan`] keeps the rules of plans
//! (`IsPlan`): limits, forms and ranges of the words, different names, declared actors, rising line numbers. Its
//! accessors say so. It gives its vectors away without taking memory.
//!
//! [`parse`] answers the plan exactly where a text of fewer than 2^32 bytes is a script (the model's `script`), and
//! else the first line with a fault and the cause that comes first there (`answer`). Each reader of a word, a form or
//! a line answers just what the model's does; the words of `append`, `relabel` and `destroy ebr` are among them.
//! [`scripts_are_plans`]: the plan of every script keeps the rules. [`runs_agree`]: the reader of a line and
//! geo_base's `read_runs` take the same texts for the same bytes. That nothing is forgotten of a plan is a law of
//! geo_laws_scripts.
//!
//! Why so: the words that are left of a line are one slice of it, so nothing is copied. [`parse`] collects a draft, and
//! the law makes it a plan at the end, so no line is checked for the rules of plans.
//!
//! Only tested, in geo_tests_low: the table of good and bad lines, and that the calls succeed with ample memory.
//! geo_run parses by it, geo_core begins with a [`Plan`], geo_verify reads traces by its words. Read `src/text.rt`,
//! then `src/forms.rt`, one function a command.
#![tactic(auto)]

mod command;
mod draft;
mod forms;
mod header;
mod laws;
mod line;
mod number;
mod plan;
mod refusal;
mod text;
mod words;

pub use laws::{runs_agree, scripts_are_plans};
pub use number::{any_number, small_number};
pub use plan::Plan;
pub use refusal::{LineRefusal, ParseRefusal};
pub use text::{first_line, parse};
pub use words::{Words, at_end, find_byte, next_word, runs};
