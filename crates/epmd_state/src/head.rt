// The registry's own port and next creation.
ghost use Rattle.std.specs.Prelude.{◌≡◌};
ghost use Rattle.epmd_state.specs.Bytes.{registry_of, headed};

use crate::layout::{NEXT, PORT, SIZE};

#[tactic(auto, unfolding(crate::specs::Bytes::registry_of))]
pub fn port(state: &[u8; SIZE]) -> u16
    ensures { result ≡ (registry_of state.now).port }
{
    wire::get::<u16>(state, PORT)
}

#[tactic(auto, unfolding(crate::specs::Bytes::registry_of))]
pub fn next(state: &[u8; SIZE]) -> u32
    ensures { result ≡ (registry_of state.now).next }
{
    wire::get::<u32>(state, NEXT)
}

#[tactic(auto, using(crate::proofs::BytesLaws::next_here))]
pub fn put_next(state: &mut [u8; SIZE], next: u32)
    ensures { registry_of state.new ≡ headed (registry_of state.old).port next (registry_of state.old) }
{
    wire::put::<u32>(state, NEXT, next);
}

pub fn put_head(state: &mut [u8; SIZE], port: u16, next: u32)
    ensures { registry_of state.new ≡ headed port next (registry_of state.old) }
{
    wire::put::<u16>(state, PORT, port);
    wire::put::<u32>(state, NEXT, next);
}
