// Arrive and close: calls that are lent no output.
ghost use Rattle.handshake_rules.specs.Calls as calls;
ghost use Rattle.handshake_state.specs.Bytes.{endpoint_of, Tells};

use handshake_rules::endpoint::{Answer, Slot, Sought, Stage};
use handshake_rules::refusal::Refusal;
use handshake_state::SIZE;
use handshake_state::answers::without;
use handshake_state::bytes::put_slot;
use handshake_state::lookup::find;
use handshake_state::slots::stage_at;

// The lowest free slot awaits a name.
pub(crate) fn arrive(state: &mut [u8; SIZE]) -> Result<Answer, Refusal>
    ensures { Tells (calls.arrive_of (endpoint_of state.old)) result state.new }
{
    let at = find(state, Sought::AnyFree, b"").ok_or(Refusal::NoFreeSlot)?;
    let opened = Slot {
        stage: Stage::AwaitsName,
        ..Slot::default()
    };
    put_slot(state, at, opened);
    Ok(Answer::Arrived { slot: at })
}

// Frees any taken slot.
pub(crate) fn close(state: &mut [u8; SIZE], at: usize) -> Result<Answer, Refusal>
    ensures { Tells (calls.close_of (endpoint_of state.old) at) result state.new }
{
    if stage_at(state, at) == Stage::Free {
        return Err(Refusal::SlotNotTaken);
    }
    without(state, at);
    Ok(Answer::Closed)
}
