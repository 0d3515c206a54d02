// Requests, on an output of the room that a call needs.
ghost use Rattle.std.specs.Prelude.{◌≡◌, ◌<◌, Ok};
ghost use Rattle.epmd_rules.specs.Requests.{room};
ghost use Rattle.epmd_rules.specs.Registry.{lowest_free, stepped, filled};
ghost use Rattle.epmd_rules.specs.Serve.{alive2_of, request_of};
ghost use Rattle.epmd_state.specs.Bytes.{places, registry_of, Does};

use crate::replies::{put_names, put_port2};
use crate::result::place_for;
use epmd_messages::replies::{ROOM, put_alive2_reply};
use epmd_messages::requests::{Alive2Req, examine};
use epmd_rules::refusal::Refusal;
use epmd_rules::registration::Registration;
use epmd_rules::request::Request;
use epmd_state::head::{next, put_next};
use epmd_state::layout::SIZE;
use epmd_state::put::put;

// The creation after this one: 0 is never given.
#[tactic(auto, unfolding(epmd_rules::specs::Registry::stepped))]
fn step(creation: u32) -> u32
    ensures { result ≡ stepped creation }
{
    creation.checked_add(1).unwrap_or(1)
}

// The lowest free place gets a registration, under the next creation.
#[tactic(auto, unfolding(epmd_rules::specs::Registry::filled))]
fn fill(state: &mut [u8; SIZE], at: usize, p: Registration, creation: u32)
    requires { (at ≡ lowest_free (registry_of state.old)) × (at < places) × (creation ≡ (registry_of state.old).next) }
    ensures { registry_of state.new ≡ filled (registry_of state.old) p }
{
    put(state, at, p);
    put_next(state, step(creation));
}

// ALIVE2_REQ: fills the lowest free place, or tells why not and changes nothing. Tells the reply's length.
fn alive2(state: &mut [u8; SIZE], connection: u32, asked: &Alive2Req, out: &mut [u8; ROOM]) -> usize
    ensures { Does (alive2_of (registry_of state.old) connection asked.now.body.now) (Ok result) state.new out.old out.new }
{
    let highest = asked.highest();
    match place_for(state, connection, asked.name()) {
        Ok(at) => {
            let creation = next(state);
            let registration = asked.registration(connection, creation);
            fill(state, at, registration, creation);
            put_alive2_reply(out, highest, 0, creation)
        }
        Err(why) => put_alive2_reply(out, highest, why.number(), 0),
    }
}

pub(crate) fn answer(
    state: &mut [u8; SIZE],
    connection: u32,
    frame: &[u8],
    out: &mut [u8; ROOM],
) -> Result<usize, Refusal>
    ensures { Does (request_of (registry_of state.old) connection frame.now room) result state.new out.old out.new }
{
    let asked = examine(frame, ROOM)?;
    let body = wire::body_of(frame);
    let written = match asked {
        Request::Alive2 => alive2(state, connection, &Alive2Req { body }, out),
        Request::PortPlease2 => put_port2(state, &body[1..], out),
        Request::Names => put_names(state, out),
    };
    Ok(written)
}
