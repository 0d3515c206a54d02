// The lines of the one reading with the fewest lines, from the text's start to its end.
ghost use Rattle.epmd_client_names.specs.Walk.{FirstLen, Leading, Walk, Walked};

use crate::tally::Tally;
use crate::text::NAME_WORD;
use epmd_client_rules::reply::LineAt;

// The length of the first name of the only reading from p on with k lines or fewer.
#[tactic(auto, using(crate::proofs::TextLaws::has_inside))]
fn first_len(s: &[u8], p: usize, k: u8, tallies: &[Tally]) -> Option<usize>
    requires { Leading s.now p k tallies.now }
    ensures { FirstLen s.now p k result }
{
    let from = p + NAME_WORD;
    for n in 1..crate::text::lengths_end(s, from) {
        if crate::text::space_at(s, from + n)
            && crate::text::a_behind(s, from + n)
            && crate::survey::through(s, p, n, tallies).fewest() == Some(k)
        {
            return Some(n);
        }
    }
    None
}

// The lines as they are told. The text begins behind the four bytes of the own port.
pub(crate) fn walk(s: &[u8], tallies: &[Tally], count: u8) -> [LineAt; 64]
    requires { Walk s.now tallies.now count }
    ensures { Walked s.now count result }
{
    let mut lines = [LineAt::default(); 64];
    let mut p: usize = 0;
    for i in 0..count {
        let n = first_len(s, p, count - i, tallies).unwrap();
        let from = p + NAME_WORD;
        let tail = crate::text::tail_at(s, from + n).unwrap();
        let j = i as usize;
        lines[j] = LineAt {
            at: (4 + from) as u32,
            len: n as u32,
            port: tail.port,
        };
        p = tail.next;
    }
    lines
}
