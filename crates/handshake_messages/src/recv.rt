ghost use Rattle.std.specs.Prelude.{◌≡◌, ◌+◌, ◌≤◌, length, Ok, Err, MatchResult};
ghost use Rattle.wire.specs.Run.{part};
ghost use Rattle.wire.specs.Number.{be_at};
ghost use Rattle.handshake_rules.specs.Flags.{flag_test};
ghost use Rattle.handshake_rules.specs.Messages.{tag_of};
ghost use Rattle.handshake_rules.specs.Refusals.{checked};
ghost use Rattle.handshake_rules.specs.Forms.{flag_tests, head_tests, form_tests, name_form, challenge_form, status_form, exact_form};

use crate::flags::flag_test;
use handshake_rules::refusal::Refusal;

// What is asked of a message before its stage's rule: the first byte, the length, the name and the
// flags, in this order (01, refusals 4, 5, 6 and 9).

// Flags, wherever they come from: what is wrong with them is carried on.
pub fn check_flags(flags: u64) -> Result<(), Refusal>
    ensures { result ≡ checked (flag_tests (flag_test flags)) }
{
    flag_test(flags)?;
    Ok(())
}

// The first byte; of no bytes, 0, which is no message's.
fn tag_of(body: &[u8]) -> u8
    ensures { result ≡ tag_of body.now }
{
    if body.is_empty() {
        return 0;
    }
    wire::get(body, 0)
}

// The name at a message's end, whose length stands at an offset.
fn name_in(body: &[u8], at: usize) -> Result<&[u8], Refusal>
    requires { at ≤ 17 }
    ensures { MatchResult result (λ name. (checked (head_tests at body.now) ≡ Ok tt) × (name.now ≡ part (at + 2) (be_at 2 at body.now) body.now)) (λ why. checked (head_tests at body.now) ≡ Err why) }
{
    if tag_of(body) != b'N' {
        return Err(Refusal::UnknownTag);
    }
    let n = body.len();
    if n < at + 2 {
        return Err(Refusal::BadLength);
    }
    let len = wire::get::<u16>(body, at) as usize;
    if n - (at + 2) < len {
        return Err(Refusal::BadLength);
    }
    Ok(wire::get_part(body, at + 2, len))
}

pub fn check_name(body: &[u8]) -> Result<(), Refusal>
    ensures { result ≡ checked (form_tests (name_form body.now)) }
{
    let name = name_in(body, 13)?;
    if !names::is_full_name(name) {
        return Err(Refusal::BadName);
    }
    check_flags(wire::get(body, 1))
}

// The name must be the one that we started towards.
pub fn check_challenge(body: &[u8], peer: &[u8]) -> Result<(), Refusal>
    ensures { result ≡ checked (form_tests (challenge_form peer.now body.now)) }
{
    let name = name_in(body, 17)?;
    if !names::is_full_name(name) {
        return Err(Refusal::BadName);
    }
    if !wire::same_bytes(peer, name) {
        return Err(Refusal::BadName);
    }
    check_flags(wire::get(body, 1))
}

pub fn check_status(body: &[u8]) -> Result<(), Refusal>
    ensures { result ≡ checked (form_tests (status_form body.now)) }
{
    if tag_of(body) != b's' {
        return Err(Refusal::UnknownTag);
    }
    Ok(())
}

// A message that is so long and no longer.
pub fn check_exact(body: &[u8], tag: u8, size: usize) -> Result<(), Refusal>
    ensures { result ≡ checked (form_tests (exact_form tag size body.now)) }
{
    if tag_of(body) != tag {
        return Err(Refusal::UnknownTag);
    }
    if body.len() != size {
        return Err(Refusal::BadLength);
    }
    Ok(())
}
