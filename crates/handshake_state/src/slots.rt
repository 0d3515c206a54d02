// Slots as values: read where they lie, by their number, and a slot's next record. Each look-up answers
// past the last slot too, as `slot_at` (handshake_rules/specs/Endpoint) does: so no Option.
#![tactic(auto, using(crate::proofs::BytesLaws::slot_past, crate::proofs::BytesLaws::slot_here))]

ghost use Rattle.std.specs.Prelude.{◌≡◌};
ghost use Rattle.names.specs.Held.{name_bytes};
ghost use Rattle.handshake_rules.specs.Endpoint as spec;
ghost use Rattle.handshake_rules.specs.Plans as plans;
ghost use Rattle.handshake_state.specs.Bytes.{endpoint_of};

use crate::bytes::SIZE;
use crate::record::Record;
use handshake_rules::endpoint::{Slot, Stage};

// A slot at another stage, with the challenge that was sent on it.
pub fn sent(slot: Slot, stage: Stage, challenge: u32) -> Slot
    ensures { result ≡ plans.sent slot stage challenge }
{
    Slot {
        stage,
        challenge,
        ..slot
    }
}

// The stage of a slot; past the last slot, free.
pub fn stage_at(state: &[u8; SIZE], at: usize) -> Stage
    ensures { result ≡ (spec.slot_at (endpoint_of state.now) at).stage }
{
    if 32 <= at {
        return Stage::Free;
    }
    Record::of(state, at).stage()
}

// The name of a slot's peer, where it lies; past the last slot, none.
pub fn peer_at(state: &[u8; SIZE], at: usize) -> &[u8]
    ensures { result.now ≡ name_bytes (spec.slot_at (endpoint_of state.now) at).name }
{
    if 32 <= at {
        return b"";
    }
    Record::of(state, at).peer()
}

// A slot's record; past the last slot, that of a free one.
pub fn slot(state: &[u8; SIZE], at: usize) -> Slot
    ensures { result ≡ spec.slot_at (endpoint_of state.now) at }
{
    if 32 <= at {
        return Slot::default();
    }
    Record::of(state, at).slot()
}
