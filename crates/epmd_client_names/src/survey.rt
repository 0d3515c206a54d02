// The tallies of a text's readings, from each place on, filled from the text's end to its start.
// Text, place and tallies come one by one: what holds of them differs from call to call (Place, Begun,
// Through, Leading), so a struct of all three would still need each of these clauses.
ghost use Rattle.std.specs.Prelude.{drop};
ghost use Rattle.epmd_client_names.specs.Tallies.{Means};
ghost use Rattle.epmd_client_names.specs.Survey.{Lines, Exact, Rows, Room, Place, Begun, Through};

use crate::tally::Tally;
use crate::text::{NAME_WORD, Tail};

// The readings from p on whose first name has n bytes. Few places come so far: apart, it leaves the loops that look at
// all of them short.
#[tactic(auto, using(crate::proofs::SurveyLaws::through_laws))]
#[inline(never)]
pub(crate) fn through(s: &[u8], p: usize, n: usize, tallies: &[Tally]) -> Tally
    requires { Through s.now p n tallies.now }
    ensures { Means (Exact s.now p n) result }
{
    let from = p + NAME_WORD;
    let q = from + n;
    if s.len() <= q {
        return Tally::Nothing;
    }
    let Some(Tail { port: _, next }) = crate::text::tail_at(s, q) else {
        return Tally::Nothing;
    };
    if names::is_node_name(wire::get_part(s, from, n)) {
        tallies[next].longer()
    } else {
        Tally::Nothing
    }
}

// All readings from p on, where a line begins there. A name ends where a space follows it, and an a behind that.
#[tactic(auto, using(crate::proofs::TextLaws::has_inside))]
#[inline(never)]
fn every(s: &[u8], p: usize, tallies: &[Tally]) -> Tally
    requires { Begun s.now p tallies.now }
    ensures { Means (Lines (drop p s.now)) result }
{
    let from = p + NAME_WORD;
    let mut all = Tally::Nothing;
    for n in 1..crate::text::lengths_end(s, from) {
        if crate::text::space_at(s, from + n) && crate::text::a_behind(s, from + n) {
            all = all.join(through(s, p, n, tallies));
        }
    }
    all
}

// All readings from p on. At most places the first byte tells that no line begins there.
fn place(s: &[u8], p: usize, tallies: &[Tally]) -> Tally
    requires { Place s.now p tallies.now }
    ensures { Means (Lines (drop p s.now)) result }
{
    if s[p] == b'n' && crate::text::has(s, p, b"name ") {
        every(s, p, tallies)
    } else {
        Tally::Nothing
    }
}

// At the text's end no line is the one reading.
#[tactic(auto, using(crate::proofs::SurveyLaws::table_laws))]
pub(crate) fn fill(s: &[u8], tallies: &mut [Tally])
    requires { Room s.now tallies.old }
    ensures { Rows s.now 0 tallies.new }
{
    let end = s.len();
    tallies[end] = Tally::One(0);
    for p in (0..end).rev() {
        tallies[p] = place(s, p, tallies);
    }
}
