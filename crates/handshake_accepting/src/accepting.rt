ghost use Rattle.handshake_state.specs.Bytes.{endpoint_of, Tells, Does, Concludes, ConcludesAlike};
ghost use Rattle.handshake_rules.specs.Calls.{Roomy};
ghost use Rattle.std.specs.Prelude.{◌≡◌, ◌+◌, ◌≤◌, length, None, Ok};
ghost use Rattle.wire.specs.Output.{overwrite};
ghost use Rattle.wire.specs.Run.{order};
ghost use Rattle.handshake_rules.specs.declared.endpoint.Stage.TheVariants.{AwaitsReply, Connected};
ghost use Rattle.handshake_rules.specs.Endpoint as endpoint;
ghost use Rattle.handshake_rules.specs.Plans as plans;
ghost use Rattle.handshake_rules.specs.Accepting as spec;

use handshake_messages::cookie::{Cookie, digest, is_digest};
use handshake_messages::recv::{check_exact, check_name, check_status};
use handshake_messages::send::{send_challenge, send_challenge_ack, send_status};
use handshake_rules::accepting::Greeting;
use handshake_rules::endpoint::{Answer, Slot, Sought, Stage};
use handshake_rules::node::Node;
use handshake_rules::refusal::Refusal;
use handshake_state::SIZE;
use handshake_state::answers::{answer, refuse, say, without};
use handshake_state::bytes::{own, own_part};
use handshake_state::lookup::find;
use handshake_state::slots::{peer_at, sent, slot};
use names::Name;

// An output is a lent slice, and `state`, `at`, `challenge`, `out` stay apart: the functions that docs name
// may ask no more, and `Roomy` of a struct over a lent output would speak of out.entry.bytes.now and
// out.exit.bytes.now in each contract.

// Both sides started: the attempt of the greater name goes on.
fn contest(own: &[u8], name: &[u8], mine: usize) -> Greeting
    ensures { result ≡ spec.contest (spec.is_greater (order name.now own.now)) mine }
{
    if wire::compare(own, name).is_lt() {
        return Greeting::OkSimultaneous(mine);
    }
    Greeting::Nok
}

// The slot with what a name message brings.
fn heard(stage: Stage, peer: Node, challenge: u32) -> Slot
    ensures { result ≡ spec.heard peer.entry.name.now peer.entry.flags peer.entry.creation stage challenge }
{
    Slot {
        stage,
        name: Name::of(peer.name),
        flags: peer.flags,
        creation: peer.creation,
        challenge,
    }
}

// The first rule that fits a peer's name. Most peers have no slot yet: one look tells.
fn greeting(state: &[u8; SIZE], name: &[u8]) -> Greeting
    ensures { result ≡ spec.greeting (endpoint_of state.now) name.now }
{
    let own = own_part(state);
    if wire::same_bytes(own, name) {
        return Greeting::NotAllowed;
    }
    if find(state, Sought::AnyTaken, name).is_none() {
        return Greeting::Ok;
    }
    if find(state, Sought::AcceptedFrom, name).is_some() {
        return Greeting::Nok;
    }
    match find(state, Sought::StartedTo, name) {
        Some(mine) => contest(own, name, mine),
        None => {
            if find(state, Sought::ConnectedTo, name).is_some() {
                return Greeting::Alive;
            }
            Greeting::Ok
        }
    }
}

// Frees another slot, if there is one.
fn free_other(state: &mut [u8; SIZE], other: Option<usize>)
    ensures { endpoint_of state.new ≡ endpoint.free_other (endpoint_of state.old) other }
{
    if let Some(at) = other {
        without(state, at);
    }
}

// Writes our challenge message at an offset, and tells its length.
fn send_own_challenge(state: &[u8; SIZE], challenge: u32, out: &mut [u8], at: usize) -> usize
    requires { (at ≤ 18) × Roomy out.old }
    ensures value { result ≡ length (plans.challenge_of (endpoint_of state.now) challenge) }
    ensures bound { result ≤ 276 }
    ensures out_after { out.new ≡ overwrite out.old at (plans.challenge_of (endpoint_of state.now) challenge) }
{
    send_challenge(out, at, own(state), challenge)
}

// A status, and our challenge behind it; another slot may be freed. Apart, so that a message's call
// needs less stack.
#[inline(never)]
fn welcome(
    state: &mut [u8; SIZE],
    at: usize,
    slot: Slot,
    freed: Option<usize>,
    word: &[u8],
    challenge: u32,
    out: &mut [u8],
) -> Answer
    requires { (length word.now ≤ 15) × Roomy out.old }
    ensures { Does (plans.answered (endpoint_of state.old) at slot freed (spec.welcomes (endpoint_of state.old) word.now challenge)) (Ok result) state.new out.old out.new }
{
    let n = send_status(out, word);
    let m = send_own_challenge(state, challenge, out, n);
    free_other(state, freed);
    answer(state, at, slot, freed, n + m)
}

// By the greeting.
fn on_name(state: &mut [u8; SIZE], at: usize, peer: Node, challenge: u32, out: &mut [u8]) -> Answer
    requires { Roomy out.old }
    ensures { ConcludesAlike at (λ g. spec.on_name g peer.entry.name.now peer.entry.flags peer.entry.creation challenge (spec.greeting g peer.entry.name.now)) state.old (Ok result) state.new out.old out.new }
{
    match greeting(state, peer.name) {
        Greeting::NotAllowed => say(state, at, Slot::default(), b"not_allowed", out),
        Greeting::Nok => say(state, at, Slot::default(), b"nok", out),
        Greeting::OkSimultaneous(mine) => {
            let met = heard(Stage::AwaitsReply, peer, challenge);
            let word = b"ok_simultaneous";
            welcome(state, at, met, Some(mine), word, challenge, out)
        }
        Greeting::Alive => say(state, at, heard(Stage::AwaitsAlive, peer, 0), b"alive", out),
        Greeting::Ok => {
            let met = heard(Stage::AwaitsReply, peer, challenge);
            welcome(state, at, met, None, b"ok", challenge, out)
        }
    }
}

// Awaits name. Here and below no `?`: with `map_err(|why| refuse(state, at, why))` the proof did not close
// that a passed check leaves the state, which the closure took.
pub fn recv_name(
    state: &mut [u8; SIZE],
    at: usize,
    body: &[u8],
    challenge: u32,
    out: &mut [u8],
) -> Result<Answer, Refusal>
    requires { Roomy out.old }
    ensures { ConcludesAlike at (λ g. plans.stage_plan (spec.expect_name g challenge body.now)) state.old result state.new out.old out.new }
{
    match check_name(body) {
        Err(why) => Err(refuse(state, at, why)),
        Ok(()) => {
            let len = wire::get::<u16>(body, 13) as usize;
            let peer = Node {
                name: wire::get_part(body, 15, len),
                flags: wire::get(body, 1),
                creation: wire::get(body, 9),
            };
            Ok(on_name(state, at, peer, challenge, out))
        }
    }
}

// Our challenge alone.
fn challenge_peer(state: &mut [u8; SIZE], at: usize, challenge: u32, out: &mut [u8]) -> Answer
    requires { Roomy out.old }
    ensures { Does (plans.answered (endpoint_of state.old) at (plans.sent (endpoint.slot_at (endpoint_of state.old) at) AwaitsReply challenge) None (plans.challenge_of (endpoint_of state.old) challenge)) (Ok result) state.new out.old out.new }
{
    let count = send_own_challenge(state, challenge, out, 0);
    let next = sent(slot(state, at), Stage::AwaitsReply, challenge);
    answer(state, at, next, None, count)
}

// By the word that answers `alive`.
fn on_alive(
    state: &mut [u8; SIZE],
    at: usize,
    word: &[u8],
    challenge: u32,
    out: &mut [u8],
) -> Result<Answer, Refusal>
    requires { Roomy out.old }
    ensures { ConcludesAlike at (λ g. spec.on_alive g (endpoint.slot_at g at) challenge word.now) state.old result state.new out.old out.new }
{
    if word == b"true".as_slice() {
        return Ok(challenge_peer(state, at, challenge, out));
    }
    if word == b"false".as_slice() {
        return Ok(answer(state, at, Slot::default(), None, 0));
    }
    Err(refuse(state, at, Refusal::UnknownStatus))
}

// Awaits alive answer.
pub fn recv_alive(
    state: &mut [u8; SIZE],
    at: usize,
    body: &[u8],
    challenge: u32,
    out: &mut [u8],
) -> Result<Answer, Refusal>
    requires { Roomy out.old }
    ensures { ConcludesAlike at (λ g. plans.stage_plan (spec.expect_alive g (endpoint.slot_at g at) challenge body.now)) state.old result state.new out.old out.new }
{
    match check_status(body) {
        Err(why) => Err(refuse(state, at, why)),
        Ok(()) => on_alive(state, at, &body[1..], challenge, out),
    }
}

// The slot is connected, and an older connected slot of its peer is freed.
fn connect(state: &mut [u8; SIZE], at: usize, count: usize) -> Answer
    ensures { Tells (plans.answers (endpoint.free_other (endpoint_of state.old) (spec.older (endpoint_of state.old) (endpoint.slot_at (endpoint_of state.old) at))) at (plans.moved (endpoint.slot_at (endpoint_of state.old) at) Connected) (spec.older (endpoint_of state.old) (endpoint.slot_at (endpoint_of state.old) at)) count) (Ok result) state.new }
{
    let older = find(state, Sought::ConnectedTo, peer_at(state, at));
    let s = slot(state, at);
    free_other(state, older);
    let next = sent(s, Stage::Connected, s.challenge);
    answer(state, at, next, older, count)
}

// A reply of the right length: its digest must be that of the slot's own challenge.
fn on_challenge_reply(
    state: &mut [u8; SIZE],
    at: usize,
    body: &[u8],
    cookie: Cookie,
    out: &mut [u8],
) -> Result<Answer, Refusal>
    requires { (length body.now ≡ 21) × Roomy out.old }
    ensures { Concludes cookie.entry.bytes.now at (λ g. (spec.expect_reply g (endpoint.slot_at g at) body.now).rule) state.old result state.new out.old out.new }
{
    let s = slot(state, at);
    if !is_digest(wire::get_part(body, 5, 16), s.challenge, cookie.bytes) {
        return Err(refuse(state, at, Refusal::WrongDigest));
    }
    let d = digest(wire::get(body, 1), cookie.bytes);
    let count = send_challenge_ack(out, &d);
    Ok(connect(state, at, count))
}

// Awaits reply.
pub fn recv_challenge_reply(
    state: &mut [u8; SIZE],
    at: usize,
    body: &[u8],
    cookie: Cookie,
    out: &mut [u8],
) -> Result<Answer, Refusal>
    requires { Roomy out.old }
    ensures { Concludes cookie.entry.bytes.now at (λ g. plans.stage_plan (spec.expect_reply g (endpoint.slot_at g at) body.now)) state.old result state.new out.old out.new }
{
    match check_exact(body, b'r', 21) {
        Err(why) => Err(refuse(state, at, why)),
        Ok(()) => on_challenge_reply(state, at, body, cookie, out),
    }
}
