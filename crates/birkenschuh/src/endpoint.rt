// The handshake endpoint's calls, on an endpoint that the host lends.
ghost use Rattle.std.specs.Prelude.{◌≡◌, length};
ghost use Rattle.handshake_rules.specs.Endpoint.{slot_at};
ghost use Rattle.handshake_rules.specs.Cookie.{cookies};
ghost use Rattle.handshake_rules.specs.Calls.{new_of, start_of, arrive_of, close_of, message_of};
ghost use Rattle.handshake_state.specs.Bytes.{endpoint_of};
ghost use Rattle.birkenschuh.specs.Endpoint.{Makes, Comes, Tells, made_in, started_in, arrived_in, refusal_in, answered_in, seen_of, own_of};

use crate::numbers::{Numbers, making_why};
use handshake::SIZE;
use handshake_rules::endpoint::Slot;
use handshake_rules::refusal::Why;
use names::Name;

// Beside 9 how many required flags are missing, and the lowest of them by its bit, or 0 and 33; beside
// all else both are 0. So in `Answered`.
#[repr(C)]
#[derive(Clone, Copy)]
pub struct Made {
    pub refusal: u32,
    pub missing: u32,
    pub lowest: u32,
}

#[repr(C)]
#[derive(Clone, Copy)]
pub struct Started {
    pub refusal: u32,
    pub slot: u32,
    pub written: usize,
}

#[repr(C)]
#[derive(Clone, Copy)]
pub struct Arrived {
    pub refusal: u32,
    pub slot: u32,
}

#[repr(C)]
#[derive(Clone, Copy)]
pub struct Answered {
    pub refusal: u32,
    pub stage: u32,
    pub freed: u32,
    pub ended: u32,
    pub written: usize,
    pub missing: u32,
    pub lowest: u32,
}

// A slot's record; the name's bytes are zero behind its length.
#[repr(C)]
#[derive(Clone, Copy)]
pub struct SlotSeen {
    pub stage: u32,
    pub creation: u32,
    pub challenge: u32,
    pub flags: u64,
    pub len: u8,
    pub name: [u8; 255],
}

// What an endpoint tells of itself; the name's bytes are zero behind its length.
#[repr(C)]
#[derive(Clone, Copy)]
pub struct Own {
    pub flags: u64,
    pub creation: u32,
    pub len: u8,
    pub name: [u8; 255],
}

impl From<Why> for Made {
    ghost from_gives = { λ why made. made ≡ made_in why };

    fn from(why: Why) -> Made {
        Made {
            refusal: why.number,
            missing: why.missing,
            lowest: why.lowest,
        }
    }
}

impl From<Numbers> for Started {
    ghost from_gives = { λ n told. told ≡ started_in n };

    fn from(n: Numbers) -> Started {
        Started {
            refusal: n.why.number,
            slot: n.slot,
            written: n.written,
        }
    }
}

impl From<Numbers> for Arrived {
    ghost from_gives = { λ n told. told ≡ arrived_in n };

    fn from(n: Numbers) -> Arrived {
        Arrived {
            refusal: n.why.number,
            slot: n.slot,
        }
    }
}

impl From<Numbers> for Answered {
    ghost from_gives = { λ n told. told ≡ answered_in n };

    fn from(n: Numbers) -> Answered {
        Answered {
            refusal: n.why.number,
            stage: n.stage,
            freed: n.freed,
            ended: n.ended,
            written: n.written,
            missing: n.why.missing,
            lowest: n.why.lowest,
        }
    }
}

impl From<Slot> for SlotSeen {
    ghost from_gives = { λ s seen. seen ≡ seen_of s };

    fn from(s: Slot) -> SlotSeen {
        SlotSeen {
            stage: s.stage.number() as u32,
            creation: s.creation,
            challenge: s.challenge,
            flags: s.flags,
            len: s.name.size() as u8,
            name: s.name.array(),
        }
    }
}

#[unsafe(no_mangle)]
pub extern "C" fn bks_endpoint_new(
    e: &mut [u8; SIZE],
    name: &[u8],
    flags: u64,
    creation: u32,
) -> Made
    ensures { Makes (new_of name.now flags creation) result e.old e.new }
{
    let making = handshake::calls::make(e, name, flags, creation);
    Made::from(making_why(making))
}

// Starts towards a full name.
#[unsafe(no_mangle)]
pub extern "C" fn bks_endpoint_start(e: &mut [u8; SIZE], name: &[u8], out: &mut [u8]) -> Started
    ensures { Comes started_in (start_of (endpoint_of e.old) name.now (length out.old)) result e.new out.old out.new }
{
    let answer = handshake::calls::start(e, name, out);
    Started::from(Numbers::from(answer))
}

// A connection has come in.
#[unsafe(no_mangle)]
pub extern "C" fn bks_endpoint_arrive(e: &mut [u8; SIZE]) -> Arrived
    ensures { Tells arrived_in (arrive_of (endpoint_of e.old)) result e.new }
{
    let answer = handshake::calls::arrive(e);
    Arrived::from(Numbers::from(answer))
}

// Frees a taken slot.
#[unsafe(no_mangle)]
pub extern "C" fn bks_endpoint_close(e: &mut [u8; SIZE], slot: u32) -> u32
    ensures { Tells refusal_in (close_of (endpoint_of e.old) slot) result e.new }
{
    let answer = handshake::calls::close(e, slot as usize);
    Numbers::from(answer).why.number
}

// One frame on a slot.
#[unsafe(no_mangle)]
pub extern "C" fn bks_endpoint_message<'a>(
    e: &mut [u8; SIZE],
    slot: u32,
    frame: &[u8],
    challenge: u32,
    own: &'a [u8],
    standard: &'a [u8],
    out: &mut [u8],
) -> Answered
    ensures { Comes answered_in (message_of (cookies own.now standard.now) (endpoint_of e.old) slot frame.now challenge (length out.old)) result e.new out.old out.new }
{
    let answer = handshake::calls::message(e, slot as usize, frame, challenge, own, standard, out);
    Answered::from(Numbers::from(answer))
}

// A slot's record; from 32 on that of a free one.
#[unsafe(no_mangle)]
pub extern "C" fn bks_endpoint_slot(e: &[u8; SIZE], slot: u32) -> SlotSeen
    ensures { result ≡ seen_of (slot_at (endpoint_of e.now) slot) }
{
    SlotSeen::from(handshake::calls::slot(e, slot as usize))
}

fn own_seen(name: Name, flags: u64, creation: u32) -> Own
    ensures { result ≡ own_of name flags creation }
{
    Own {
        flags,
        creation,
        len: name.size() as u8,
        name: name.array(),
    }
}

// The endpoint's own name, flags and creation.
#[unsafe(no_mangle)]
pub extern "C" fn bks_endpoint_own(e: &[u8; SIZE]) -> Own
    ensures { result ≡ own_of (endpoint_of e.now).name (endpoint_of e.now).flags (endpoint_of e.now).creation }
{
    let name = handshake::calls::own_name(e);
    let flags = handshake::calls::own_flags(e);
    let creation = handshake::calls::own_creation(e);
    own_seen(name, flags, creation)
}
