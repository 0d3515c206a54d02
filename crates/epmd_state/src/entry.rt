// A record of the registry, read where it lies.
ghost use Rattle.std.specs.Prelude.{◌≡◌, ◌≤◌, ◌<◌, length};
ghost use Rattle.names.specs.Held.{name_bytes};
ghost use Rattle.epmd_rules.specs.Registration.{is_free, has_name, has_connection, held_extra, extra_bytes};
ghost use Rattle.epmd_rules.specs.Registry.{entry_at};
ghost use Rattle.epmd_state.specs.Bytes.{places, kind_in, protocol_in, port_in, highest_in, lowest_in, connection_in, creation_in, entry_by, records_in, registry_of, is_like};

use crate::layout::{
    CONNECTION, CREATION, EXTRA, EXTRA_LEN, EXTRA_ROOM, HIGHEST, KIND, LOWEST, NAME, NAME_LEN,
    NAME_ROOM, NODE_PORT, PLACES, PROTOCOL, RECORD, RECORDS, Record, SIZE,
};
use epmd_rules::registration::{Extra, Registration};
use names::Name;

// All 64 places.
pub fn records(state: &[u8; SIZE]) -> &[Record]
    ensures result_value { result.now ≡ records_in state.now }
    ensures result_len { length result.now ≡ places }
{
    state[RECORDS..].as_chunks::<RECORD>().0
}

#[tactic(auto, using(crate::proofs::BytesLaws::record_here))]
pub fn record_of(state: &[u8; SIZE], at: usize) -> &Record
    requires { at < places }
    ensures { entry_by result.now ≡ entry_at (registry_of state.now) at }
{
    &records(state)[at]
}

pub fn is_free(place: &Record) -> bool
    ensures { result ≡ is_free (entry_by place.now) }
{
    wire::get::<u8>(place, NAME_LEN) == 0
}

// Whether the name has n bytes, of which this is the last (0 if there is none). The last byte is
// looked at first: it seldom fits, at a free place never, so that the way taken can be foretold.
pub(crate) fn is_like(place: &Record, n: usize, last: u8) -> bool
    ensures { result ≡ is_like n last (entry_by place.now) }
{
    let len = wire::get::<u8>(place, NAME_LEN) as usize;
    if NAME_ROOM < n {
        return false;
    }
    if wire::get::<u8>(place, NAME_LEN + n) != last {
        return false;
    }
    len == n
}

// Alike in a request and a slot, at other offsets: one function over those would be no plainer.
#[tactic(auto, using(crate::proofs::BytesLaws::name_here, wire::proofs::RunLaws::part_length))]
pub fn name(place: &Record) -> &[u8]
    ensures result_value { result.now ≡ name_bytes (entry_by place.now).name }
    ensures result_len_bound { length result.now ≤ 255 }
{
    let len = wire::get::<u8>(place, NAME_LEN) as usize;
    wire::get_part(place, NAME, len)
}

#[tactic(auto, unfolding(epmd_rules::specs::Registration::has_name))]
pub(crate) fn has_name(place: &Record, sought: &[u8]) -> bool
    ensures { result ≡ has_name sought.now (entry_by place.now) }
{
    !is_free(place) && wire::same_bytes(name(place), sought)
}

// A length above 128 counts all extra bytes.
#[tactic(auto, using(crate::proofs::BytesLaws::extra_here, crate::proofs::BytesLaws::extra_whole, wire::proofs::RunLaws::part_length))]
pub fn extra(place: &Record) -> &[u8]
    ensures result_value { result.now ≡ extra_bytes (entry_by place.now).extra }
    ensures result_len_bound { length result.now ≤ 128 }
{
    let len = wire::get::<u8>(place, EXTRA_LEN) as usize;
    if EXTRA_ROOM < len {
        return wire::get_part(place, EXTRA, EXTRA_ROOM);
    }
    wire::get_part(place, EXTRA, len)
}

// A name for each field, each over the one generic `wire::get`: a field's width and place are its own.
pub fn kind(place: &Record) -> u8
    ensures { result ≡ kind_in place.now }
{
    wire::get::<u8>(place, KIND)
}

pub fn protocol(place: &Record) -> u8
    ensures { result ≡ protocol_in place.now }
{
    wire::get::<u8>(place, PROTOCOL)
}

pub fn port(place: &Record) -> u16
    ensures { result ≡ port_in place.now }
{
    wire::get::<u16>(place, NODE_PORT)
}

pub fn highest(place: &Record) -> u16
    ensures { result ≡ highest_in place.now }
{
    wire::get::<u16>(place, HIGHEST)
}

pub fn lowest(place: &Record) -> u16
    ensures { result ≡ lowest_in place.now }
{
    wire::get::<u16>(place, LOWEST)
}

pub fn connection(place: &Record) -> u32
    ensures { result ≡ connection_in place.now }
{
    wire::get::<u32>(place, CONNECTION)
}

#[tactic(auto, unfolding(epmd_rules::specs::Registration::has_connection, crate::specs::Bytes::entry_by))]
pub(crate) fn has_connection(place: &Record, c: u32) -> bool
    ensures { result ≡ has_connection c (entry_by place.now) }
{
    !is_free(place) && connection(place) == c
}

pub fn creation(place: &Record) -> u32
    ensures { result ≡ creation_in place.now }
{
    wire::get::<u32>(place, CREATION)
}

// The value of these 128 bytes, of which the first count.
fn held(s: &[u8], len: u8) -> Extra
    requires { length s.now ≡ 128 }
    ensures { result ≡ held_extra s.now len }
{
    let mut b = [0u8; EXTRA_ROOM];
    wire::put_bytes(&mut b, 0, s);
    Extra { bytes: b, len }
}

fn entry_of(place: &Record) -> Registration
    ensures { result ≡ entry_by place.now }
{
    let name = Name::held(
        wire::get_part(place, NAME, NAME_ROOM),
        wire::get::<u8>(place, NAME_LEN),
    );
    let extra = held(
        wire::get_part(place, EXTRA, EXTRA_ROOM),
        wire::get::<u8>(place, EXTRA_LEN),
    );
    Registration {
        name,
        extra,
        kind: kind(place),
        protocol: protocol(place),
        port: port(place),
        highest: highest(place),
        lowest: lowest(place),
        connection: connection(place),
        creation: creation(place),
    }
}

// The registration at an index; past the last place there is none. Not an Option, since `entry_at`,
// which this promises, tells a free registration there.
#[tactic(auto, using(crate::proofs::BytesLaws::none_here, crate::proofs::BytesLaws::past_here))]
pub fn entry(state: &[u8; SIZE], i: usize) -> Registration
    ensures { result ≡ entry_at (registry_of state.now) i }
{
    if PLACES <= i {
        let none = [0u8; RECORD];
        return entry_of(&none);
    }
    entry_of(record_of(state, i))
}
