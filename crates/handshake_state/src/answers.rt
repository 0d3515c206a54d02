// How a message ends: refused, or answered with the slot's next record.
ghost use Rattle.std.specs.Prelude.{◌≡◌, ◌≤◌, length, None, Ok, Err};
ghost use Rattle.handshake_rules.specs.Calls.{Roomy};
ghost use Rattle.handshake_rules.specs.Endpoint.{freed};
ghost use Rattle.handshake_rules.specs.Messages.{status_message};
ghost use Rattle.handshake_rules.specs.Plans as plans;
ghost use Rattle.handshake_state.specs.Bytes.{endpoint_of, Tells, Does};

use crate::bytes::{SIZE, put_slot};
use handshake_messages::send::send_status;
use handshake_rules::endpoint::{Answer, Slot};
use handshake_rules::refusal::Refusal;

// Frees a slot.
pub fn without(state: &mut [u8; SIZE], at: usize)
    ensures { endpoint_of state.new ≡ freed (endpoint_of state.old) at }
{
    put_slot(state, at, Slot::default())
}

// A message is refused: as the number says, everything is kept or the slot is freed.
#[tactic(auto, using(handshake_rules::proofs::SlotLaws::spared_kept, handshake_rules::proofs::SlotLaws::spared_freed))]
pub fn refuse(state: &mut [u8; SIZE], at: usize, why: Refusal) -> Refusal
    ensures { Tells (plans.refused (endpoint_of state.old) at why).told (Err result) state.new }
{
    if !why.frees() {
        return why;
    }
    without(state, at);
    why
}

// A message is answered: the slot has its next record.
pub fn answer(
    state: &mut [u8; SIZE],
    at: usize,
    slot: Slot,
    freed: Option<usize>,
    count: usize,
) -> Answer
    ensures { Tells (plans.answers (endpoint_of state.old) at slot freed count) (Ok result) state.new }
{
    put_slot(state, at, slot);
    Answer::Answered {
        stage: slot.stage,
        freed,
        count,
    }
}

// A status alone.
pub fn say(state: &mut [u8; SIZE], at: usize, slot: Slot, word: &[u8], out: &mut [u8]) -> Answer
    requires { (length word.now ≤ 15) × Roomy out.old }
    ensures { Does (plans.answered (endpoint_of state.old) at slot None (status_message word.now)) (Ok result) state.new out.old out.new }
{
    let count = send_status(out, word);
    answer(state, at, slot, None, count)
}
