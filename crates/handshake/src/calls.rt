// The calls that a host makes, over an endpoint that it lends: changed where it lies, and asked for
// nothing beforehand.
ghost use Rattle.std.specs.Prelude.{◌≡◌, length};
ghost use Rattle.handshake_rules.specs.Cookie.{cookies};
ghost use Rattle.handshake_rules.specs.Endpoint.{slot_at};
ghost use Rattle.handshake_rules.specs.Refusals.{checked};
ghost use Rattle.handshake_rules.specs.Calls.{new_tests, new_of, start_of, arrive_of, close_of, message_of};
ghost use Rattle.handshake_state.specs.Bytes.{endpoint_of, Makes, Tells, Does};

use handshake_messages::recv::check_flags;
use handshake_rules::endpoint::{Answer, Slot};
use handshake_rules::node::Node;
use handshake_rules::refusal::Refusal;
use handshake_state::SIZE;
use handshake_state::bytes::put_own;
use names::Name;

// Start and message need so many output bytes; they write at most 294.
pub const ROOM: usize = 300;

// An endpoint's own name, then its flags.
fn check_own(name: &[u8], flags: u64) -> Result<(), Refusal>
    ensures { result ≡ checked (new_tests name.now flags) }
{
    if !names::is_full_name(name) {
        return Err(Refusal::BadName);
    }
    check_flags(flags)
}

// Makes an endpoint.
pub fn make(state: &mut [u8; SIZE], name: &[u8], flags: u64, creation: u32) -> Result<(), Refusal>
    ensures { Makes (new_of name.now flags creation) result state.old state.new }
{
    check_own(name, flags)?;
    *state = [0u8; SIZE];
    let node = Node {
        name,
        flags,
        creation,
    };
    put_own(state, node);
    Ok(())
}

// Each call below is stated here, where a host looks for it, and done in a module of its own: one place for both would be no plainer.

// Starts towards a full name: takes the lowest free slot and writes the name message.
pub fn start(state: &mut [u8; SIZE], name: &[u8], out: &mut [u8]) -> Result<Answer, Refusal>
    ensures { Does (start_of (endpoint_of state.old) name.now (length out.old)) result state.new out.old out.new }
{
    crate::start::start(state, name, out)
}

// A connection has come in: takes the lowest free slot.
pub fn arrive(state: &mut [u8; SIZE]) -> Result<Answer, Refusal>
    ensures { Tells (arrive_of (endpoint_of state.old)) result state.new }
{
    crate::slots::arrive(state)
}

// Frees any taken slot.
pub fn close(state: &mut [u8; SIZE], at: usize) -> Result<Answer, Refusal>
    ensures { Tells (close_of (endpoint_of state.old) at) result state.new }
{
    crate::slots::close(state, at)
}

// A message on a slot, with a challenge and the cookies lent to this call.
pub fn message<'a>(
    state: &mut [u8; SIZE],
    slot: usize,
    frame: &[u8],
    challenge: u32,
    own: &'a [u8],
    standard: &'a [u8],
    out: &mut [u8],
) -> Result<Answer, Refusal>
    ensures { Does (message_of (cookies own.now standard.now) (endpoint_of state.old) slot frame.now challenge (length out.old)) result state.new out.old out.new }
{
    crate::message::message(state, slot, frame, challenge, own, standard, out)
}

// A slot's record; past the last slot, that of a free one.
pub fn slot(state: &[u8; SIZE], at: usize) -> Slot
    ensures { result ≡ slot_at (endpoint_of state.now) at }
{
    handshake_state::slots::slot(state, at)
}

// The endpoint's own name, flags and creation.
pub fn own_name(state: &[u8; SIZE]) -> Name
    ensures { result ≡ (endpoint_of state.now).name }
{
    handshake_state::bytes::own_name(state)
}

pub fn own_flags(state: &[u8; SIZE]) -> u64
    ensures { result ≡ (endpoint_of state.now).flags }
{
    handshake_state::bytes::own_flags(state)
}

pub fn own_creation(state: &[u8; SIZE]) -> u32
    ensures { result ≡ (endpoint_of state.now).creation }
{
    handshake_state::bytes::own_creation(state)
}
