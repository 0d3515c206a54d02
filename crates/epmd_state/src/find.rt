// Look-up: each tells the lowest place that is sought. A look-up by name is what a mapper does most, so
// the loop that it runs reads one byte of a place, the one that would be the name's last, and where
// that is right the length: most names differ there.
ghost use Rattle.std.specs.Prelude.{◌≡◌, ◌+◌, ◌≤◌, drop};
ghost use Rattle.wire.specs.Lookup.{first_at};
ghost use Rattle.epmd_rules.specs.Registry.{by_name, by_connection, lowest_free};
ghost use Rattle.epmd_state.specs.Bytes.{places, registry_of, last_of, is_like, found};

use crate::entry;
use crate::entry::{record_of, records};
use crate::layout::{PLACES, SIZE};

// From a place on, the first whose name has n bytes and this last one, or 64. By an Option LLVM makes
// one loop of this and find_name's, and a name that is not there takes 2.6 to 3.3 times as long, by
// `position` 4.9 times (docs/PERFORMANCE, PORT_PLEASE2, none of 64).
fn find_like(state: &[u8; SIZE], from: usize, n: usize, last: u8) -> usize
    requires { from ≤ places }
    ensures { result ≡ from + first_at (is_like n last) (drop from (registry_of state.now).registrations) }
{
    for i in from..PLACES {
        if entry::is_like(record_of(state, i), n, last) {
            return i;
        }
    }
    PLACES
}

// 0 where there is none, as `last_of` says: `is_like` compares it with a byte of any place, free ones too.
fn last_of(s: &[u8]) -> u8
    ensures { result ≡ last_of s.now }
{
    match s {
        [.., last] => *last,
        [] => 0,
    }
}

// Goes on from place to place that is like the name by an index, as find_like tells it.
pub fn find_name(state: &[u8; SIZE], name: &[u8]) -> Option<usize>
    ensures { result ≡ found (by_name (registry_of state.now) name.now) }
{
    let n = name.len();
    let last = last_of(name);
    let mut i = find_like(state, 0, n, last);
    while i < PLACES {
        if entry::has_name(record_of(state, i), name) {
            return Some(i);
        }
        i = find_like(state, i + 1, n, last);
    }
    None
}

pub fn find_connection(state: &[u8; SIZE], c: u32) -> Option<usize>
    ensures { result ≡ found (by_connection (registry_of state.now) c) }
{
    records(state)
        .iter()
        .position(|place| entry::has_connection(place, c))
}

pub fn find_free(state: &[u8; SIZE]) -> Option<usize>
    ensures { result ≡ found (lowest_free (registry_of state.now)) }
{
    records(state).iter().position(entry::is_free)
}
