// Reads a NAMES reply (02, P1): refused if it has no reading, refused if it has two, else the one.
//
// A name may hold newlines and ` at port `, so a text can be cut into lines in very many ways. They
// are counted from the end of the text to its start (survey): the readings from a place on are, for
// each length that the first name can have, the readings from the end of that line on. Of each place
// only a tally is kept: whether there is no reading, exactly one, one that has the fewest lines and
// others with more, or two with the fewest lines; and that number of lines, if it is at most 64. This
// suffices, since the numbers of lines of a text's readings have no gap: where one has k lines and
// another more, one has k + 1. So if fewer than 64 are the fewest and there is another reading, two
// have at most 64 lines.
// The only reading is then walked once more, from the start, along the fewest lines (walk).
//
// The table of the tallies is on the stack: 17,601 places of two bytes. The time grows with the
// text's length times 255, the longest name.
#![tactic(auto)]

mod read;
mod survey;
mod tally;
mod text;
mod walk;

pub use read::read_names;
