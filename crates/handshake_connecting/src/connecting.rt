ghost use Rattle.handshake_state.specs.Bytes.{endpoint_of, Tells, Concludes, ConcludesAlike};
ghost use Rattle.handshake_rules.specs.Calls.{Roomy};
ghost use Rattle.std.specs.Prelude.{◌≡◌, ◌≤◌, length, Ok};
ghost use Rattle.handshake_rules.specs.Endpoint.{slot_at};
ghost use Rattle.handshake_rules.specs.Plans as plans;
ghost use Rattle.handshake_rules.specs.Connecting as spec;

use handshake_messages::cookie::{Cookie, digest, is_digest};
use handshake_messages::recv::{check_challenge, check_exact, check_status};
use handshake_messages::send::send_challenge_reply;
use handshake_rules::connecting::Reaction;
use handshake_rules::endpoint::{Answer, Slot, Stage};
use handshake_rules::refusal::Refusal;
use handshake_state::SIZE;
use handshake_state::answers::{answer, refuse, say};
use handshake_state::slots::{peer_at, sent, slot};

// A `match` on byte strings was tried: its proof falls into a case for each byte and did not close.
#[tactic(auto, using(wire::proofs::RunLaws::same_std), unfolding(handshake_rules::specs::Connecting::reaction))]
fn reaction_to(word: &[u8]) -> Reaction
    ensures { result ≡ spec.reaction word.now }
{
    if word == b"ok".as_slice() || word == b"ok_simultaneous".as_slice() {
        return Reaction::Proceed;
    }
    if word == b"alive".as_slice() {
        return Reaction::Confirm;
    }
    if word == b"nok".as_slice() || word == b"not_allowed".as_slice() {
        return Reaction::GiveUp;
    }
    Reaction::Unknown
}

// By the status word.
fn on_status(
    state: &mut [u8; SIZE],
    at: usize,
    word: &[u8],
    out: &mut [u8],
) -> Result<Answer, Refusal>
    requires { Roomy out.old }
    ensures { ConcludesAlike at (λ g. spec.on_status (slot_at g at) (spec.reaction word.now)) state.old result state.new out.old out.new }
{
    let s = slot(state, at);
    let t = sent(s, Stage::AwaitsChallenge, s.challenge);
    match reaction_to(word) {
        Reaction::Proceed => Ok(answer(state, at, t, None, 0)),
        Reaction::Confirm => Ok(say(state, at, t, b"true", out)),
        Reaction::GiveUp => Err(refuse(state, at, Refusal::Declined)),
        Reaction::Unknown => Err(refuse(state, at, Refusal::UnknownStatus)),
    }
}

// Awaits status. Here and below no `?`, and parameters apart: see handshake_accepting.
pub fn recv_status(
    state: &mut [u8; SIZE],
    at: usize,
    body: &[u8],
    out: &mut [u8],
) -> Result<Answer, Refusal>
    requires { Roomy out.old }
    ensures { ConcludesAlike at (λ g. plans.stage_plan (spec.expect_status (slot_at g at) body.now)) state.old result state.new out.old out.new }
{
    match check_status(body) {
        Err(why) => Err(refuse(state, at, why)),
        Ok(()) => on_status(state, at, &body[1..], out),
    }
}

// Answers a challenge message that is in order.
fn on_challenge(
    state: &mut [u8; SIZE],
    at: usize,
    s: Slot,
    body: &[u8],
    challenge: u32,
    cookie: Cookie,
    out: &mut [u8],
) -> Answer
    requires { (19 ≤ length body.now) × Roomy out.old }
    ensures { Concludes cookie.entry.bytes.now at (λ g. (spec.expect_challenge s challenge body.now).rule) state.old (Ok result) state.new out.old out.new }
{
    let d = digest(wire::get(body, 9), cookie.bytes);
    let count = send_challenge_reply(out, challenge, &d);
    let flags = wire::get(body, 1);
    let creation = wire::get(body, 13);
    let t = Slot {
        stage: Stage::AwaitsAck,
        flags,
        creation,
        challenge,
        ..s
    };
    answer(state, at, t, None, count)
}

// Awaits challenge.
pub fn recv_challenge(
    state: &mut [u8; SIZE],
    at: usize,
    body: &[u8],
    challenge: u32,
    cookie: Cookie,
    out: &mut [u8],
) -> Result<Answer, Refusal>
    requires { Roomy out.old }
    ensures { Concludes cookie.entry.bytes.now at (λ g. plans.stage_plan (spec.expect_challenge (slot_at g at) challenge body.now)) state.old result state.new out.old out.new }
{
    let s = slot(state, at);
    match check_challenge(body, peer_at(state, at)) {
        Err(why) => Err(refuse(state, at, why)),
        Ok(()) => Ok(on_challenge(state, at, s, body, challenge, cookie, out)),
    }
}

// An acknowledgement of the right length: its digest must be that of the challenge that we sent.
fn on_challenge_ack(
    state: &mut [u8; SIZE],
    at: usize,
    body: &[u8],
    cookie: Cookie,
) -> Result<Answer, Refusal>
    requires { (length body.now ≡ 17) }
    ensures { Tells (plans.concluded cookie.entry.bytes.now cookie.entry.bytes.now (endpoint_of state.old) at (spec.expect_ack (slot_at (endpoint_of state.old) at) body.now).rule).told result state.new }
{
    let s = slot(state, at);
    if !is_digest(wire::get_part(body, 1, 16), s.challenge, cookie.bytes) {
        return Err(refuse(state, at, Refusal::WrongDigest));
    }
    let t = sent(s, Stage::Connected, s.challenge);
    Ok(answer(state, at, t, None, 0))
}

// Awaits acknowledgement; writes nothing.
pub fn recv_challenge_ack(
    state: &mut [u8; SIZE],
    at: usize,
    body: &[u8],
    cookie: Cookie,
) -> Result<Answer, Refusal>
    ensures { Tells (plans.concluded cookie.entry.bytes.now cookie.entry.bytes.now (endpoint_of state.old) at (plans.stage_plan (spec.expect_ack (slot_at (endpoint_of state.old) at) body.now))).told result state.new }
{
    match check_exact(body, b'a', 17) {
        Err(why) => Err(refuse(state, at, why)),
        Ok(()) => on_challenge_ack(state, at, body, cookie),
    }
}
