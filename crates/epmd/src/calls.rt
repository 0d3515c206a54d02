// The calls that a host makes, on a registry in bytes that it lends.
ghost use Rattle.std.specs.Prelude.{length};
ghost use Rattle.epmd_rules.specs.Registry.{new_of, close_of};
ghost use Rattle.epmd_rules.specs.Serve.{request_of};
ghost use Rattle.epmd_state.specs.Bytes.{registry_of, Does, Makes, Closes};

use crate::serve::answer;
use epmd_messages::replies::ROOM;
use epmd_rules::refusal::Refusal;
use epmd_state::find::find_connection;
use epmd_state::head::put_head;
use epmd_state::layout::SIZE;
use epmd_state::put::clear;

// What a host may see: the registration at an index (from 64 on there is none), the creation that
// the next registration gets, and the mapper's own port.
pub use epmd_state::entry::entry;
pub use epmd_state::head::{next, port};

// Makes a registry; a refusal leaves the bytes as they were.
#[tactic(auto, unfolding(epmd_rules::specs::Registry::new_of))]
pub fn make(state: &mut [u8; SIZE], port: u16, first: u32) -> Result<(), Refusal>
    ensures { Makes (new_of port first) result state.old state.new }
{
    if first == 0 {
        return Err(Refusal::ZeroCreation);
    }
    *state = [0u8; SIZE];
    put_head(state, port, first);
    Ok(())
}

// A frame from a connection: the reply is written from the first byte of out on.
pub fn request(
    state: &mut [u8; SIZE],
    connection: u32,
    frame: &[u8],
    out: &mut [u8],
) -> Result<usize, Refusal>
    ensures { Does (request_of (registry_of state.old) connection frame.now (length out.old)) result state.new out.old out.new }
{
    match out.first_chunk_mut::<ROOM>() {
        Some(reply) => answer(state, connection, frame, reply),
        None => Err(Refusal::OutputTooShort),
    }
}

// Frees the registration of a connection and says so, or says that there was none.
#[tactic(auto, unfolding(epmd_rules::specs::Registry::close_of))]
pub fn close(state: &mut [u8; SIZE], connection: u32) -> bool
    ensures { Closes (close_of (registry_of state.old) connection) result state.new }
{
    match find_connection(state, connection) {
        Some(at) => {
            clear(state, at);
            true
        }
        None => false,
    }
}
