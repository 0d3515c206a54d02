// Scripts for the mapper (01, The script program): a line to an item, a group of three lines to a
// call, hexadecimal and decimal text both ways, and the lines of the answer.
//
// A run's state is the line that it awaits and a registry in lent bytes. What an input prints is said
// whole in specs/Lines: `run` promises it of a reader and a writer whose bytes are known. A `requires`
// here is one that our own program meets.
#![tactic(auto)]

mod answer;
mod gather;
mod line;
mod run;
mod script;
mod text;

pub use line::{Item, item_of};
pub use run::run as run_script;

// How many bytes an answer takes at most (a NAMES reply), how many characters of a line are held, and how
// much of the input is read at a time.
pub(crate) const ANSWER: usize = 14 + 2 * epmd::ROOM;

pub(crate) const HELD: usize = 801;

pub(crate) const PART: usize = 4096;
