// Where the state's fields lie, as specs/Bytes lays them out: our own name, flags and creation, and
// behind them the slots' records (record.rt). Offsets and widths stand there and here and nowhere else.
#![tactic(auto, using(wire::proofs::RunLaws::part_length, wire::proofs::TableLaws::part_within), unfolding(crate::specs::Bytes::endpoint_of, names::specs::Held::name_bytes))]

ghost use Rattle.std.specs.Prelude.{◌≡◌, ◌≤◌, length};
ghost use Rattle.names.specs.Held.{name_of, name_bytes};
ghost use Rattle.handshake_rules.specs.Endpoint.{put};
ghost use Rattle.handshake_state.specs.Bytes.{endpoint_of, owned_by};

use crate::record::{NAME, RECORD, numbers};
use handshake_rules::endpoint::Slot;
use handshake_rules::node::Node;
use names::Name;

const OWN_LEN: usize = 0;

const OWN_NAME: usize = OWN_LEN + 1;

const OWN_FLAGS: usize = OWN_NAME + 255;

const OWN_CREATION: usize = OWN_FLAGS + 8;

pub(crate) const OWN: usize = OWN_CREATION + 4;

// What a state takes. It is bytes and no struct, since a host in another language lends it, of
// bks_endpoint_size bytes.
pub const SIZE: usize = OWN + 32 * RECORD;

// The slot gets this record; past the last slot nothing changes, as `put` (handshake_rules/specs/Endpoint)
// has it: so no Option.
#[tactic(auto, using(crate::proofs::BytesLaws::kept_past))]
pub fn put_slot(state: &mut [u8; SIZE], at: usize, slot: Slot)
    ensures { endpoint_of state.new ≡ put (endpoint_of state.old) at slot }
{
    if 32 <= at {
        return;
    }
    let o = OWN + at * RECORD;
    wire::put_bytes(state, o, &numbers(slot));
    wire::put_bytes(state, o + NAME, &slot.name.array());
}

// Our own name where it lies (alike in a slot's record, at other offsets: one function would be no
// plainer); and as a value, for a host.
pub fn own_part(state: &[u8; SIZE]) -> &[u8]
    ensures result_value { result.now ≡ name_bytes (endpoint_of state.now).name }
    ensures result_len_bound { length result.now ≤ 255 }
{
    let len = wire::get::<u8>(state, OWN_LEN) as usize;
    wire::get_part(state, OWN_NAME, len)
}

pub fn own_name(state: &[u8; SIZE]) -> Name
    ensures { result ≡ (endpoint_of state.now).name }
{
    Name::held(
        wire::get_part(state, OWN_NAME, 255),
        wire::get::<u8>(state, OWN_LEN),
    )
}

pub fn own_flags(state: &[u8; SIZE]) -> u64
    ensures { result ≡ (endpoint_of state.now).flags }
{
    wire::get(state, OWN_FLAGS)
}

pub fn own_creation(state: &[u8; SIZE]) -> u32
    ensures { result ≡ (endpoint_of state.now).creation }
{
    wire::get(state, OWN_CREATION)
}

// Our own node, as it is told to a peer.
pub fn own(state: &[u8; SIZE]) -> Node<'_>
    ensures name { result.name.now ≡ name_bytes (endpoint_of state.now).name }
    ensures flags { result.flags ≡ (endpoint_of state.now).flags }
    ensures creation { result.creation ≡ (endpoint_of state.now).creation }
{
    Node {
        name: own_part(state),
        flags: own_flags(state),
        creation: own_creation(state),
    }
}

// The endpoint gets a name, flags and creation of its own; its slots stay.
pub fn put_own(state: &mut [u8; SIZE], node: Node)
    ensures { endpoint_of state.new ≡ owned_by (name_of node.entry.name.now) node.entry.flags node.entry.creation (endpoint_of state.old) }
{
    let name = Name::of(node.name).array();
    wire::put::<u8>(state, OWN_LEN, node.name.len() as u8);
    wire::put_bytes(state, OWN_NAME, &name);
    wire::put(state, OWN_FLAGS, node.flags);
    wire::put(state, OWN_CREATION, node.creation);
}
