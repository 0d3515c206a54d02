// The reply as a whole: the own port in four bytes, and the text.
ghost use Rattle.std.specs.Prelude.{◌++◌};
ghost use Rattle.wire.specs.Number.{be};
ghost use Rattle.epmd_client_rules.specs.Readings.{Tells};

use crate::tally::Tally;
use epmd_client_rules::reply::NamesReply;
use epmd_client_rules::unreadable::Unreadable;

// The most bytes that 64 lines have, of 275 bytes each.
const MOST: usize = 17600;

// A tally for each place of a text, and for its end.
const PLACES: usize = 17601;

// The reply with an own port and a text behind it.
fn read_text(own: u16, s: &[u8]) -> Result<NamesReply, Unreadable>
    ensures { Tells (be 4 own ++ s.now) result }
{
    if MOST < s.len() {
        return Err(Unreadable::WrongLength);
    }
    let mut tallies = [Tally::Nothing; PLACES];
    crate::survey::fill(s, &mut tallies);
    let count = tallies[0].verdict()?;
    let lines = crate::walk::walk(s, &tallies, count);
    Ok(NamesReply {
        port: own,
        count: count as u32,
        lines,
    })
}

#[tactic(auto, using(crate::proofs::ReplyLaws::own_laws))]
pub fn read_names(reply: &[u8]) -> Result<NamesReply, Unreadable>
    ensures { Tells reply.now result }
{
    if reply.len() < 4 {
        return Err(Unreadable::WrongLength);
    }
    let Ok(own) = u16::try_from(wire::get::<u32>(reply, 0)) else {
        return Err(Unreadable::WrongLength);
    };
    read_text(own, &reply[4..])
}
