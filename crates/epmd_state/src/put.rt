// A record of the registry, written where it lies.
ghost use Rattle.std.specs.Prelude.{◌≡◌, ◌+◌, ◌≤◌, ◌<◌, ◌++◌, length};
ghost use Rattle.wire.specs.Number.{be};
ghost use Rattle.wire.specs.Output.{overwrite};
ghost use Rattle.wire.specs.Layout.{encode, Fits};
ghost use Rattle.epmd_rules.specs.Registration.{free};
ghost use Rattle.epmd_state.specs.Bytes.{tail_l, places, tail_at, entry_size, tail_values, registry_of, placed};

use crate::layout::{
    CONNECTION, CREATION, EXTRA_LEN, HIGHEST, KIND, LOWEST, NODE_PORT, PROTOCOL, RECORD, RECORDS,
    SIZE,
};
use epmd_rules::registration::Registration;

// A name or extra bytes, all of their room, behind how many count.
#[tactic(auto, using(wire::proofs::OutputLaws::overwrite_join))]
fn put_text(state: &mut [u8], at: usize, len: u8, bytes: &[u8])
    requires { at + 1 + length bytes.now ≤ length state.old }
    ensures { state.new ≡ overwrite state.old at (be 1 len ++ bytes.now) }
{
    wire::put::<u8>(state, at, len);
    wire::put_bytes(state, at + 1, bytes);
}

// All of a record behind its extra bytes; `at` is where the record begins.
fn put_numbers(state: &mut [u8], at: usize, p: &Registration)
    requires { at + entry_size ≤ length state.old }
    ensures state_after { state.new ≡ overwrite state.old (at + tail_at) (encode tail_l (tail_values p.now)) }
    ensures fits { Fits tail_l (tail_values p.now) }
{
    wire::put::<u8>(state, at + KIND, p.kind);
    wire::put::<u8>(state, at + PROTOCOL, p.protocol);
    wire::put::<u16>(state, at + NODE_PORT, p.port);
    wire::put::<u16>(state, at + HIGHEST, p.highest);
    wire::put::<u16>(state, at + LOWEST, p.lowest);
    wire::put::<u32>(state, at + CONNECTION, p.connection);
    wire::put::<u32>(state, at + CREATION, p.creation);
}

// The place holds this registration.
pub fn put(state: &mut [u8; SIZE], at: usize, p: Registration)
    requires { at < places }
    ensures { registry_of state.new ≡ placed (registry_of state.old) at p }
{
    let o = RECORDS + at * RECORD;
    put_text(state, o, p.name.size() as u8, &p.name.array());
    put_text(state, o + EXTRA_LEN, p.extra.len, &p.extra.bytes);
    put_numbers(state, o, &p);
}

// The place is free: all zero.
#[tactic(auto, using(crate::proofs::BytesLaws::clear_here))]
pub fn clear(state: &mut [u8; SIZE], at: usize)
    requires { at < places }
    ensures { registry_of state.new ≡ placed (registry_of state.old) at free }
{
    wire::put_bytes(state, RECORDS + at * RECORD, &[0u8; RECORD]);
}
