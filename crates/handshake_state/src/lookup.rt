// Look-up: the lowest slot of a kind, by the peer's name where the kind has one. Which is sought is an enum
// and no closure, since `sought` and `of_kind` (handshake_rules/specs/Endpoint) go by it.
ghost use Rattle.std.specs.Prelude.{◌≡◌};
ghost use Rattle.handshake_rules.specs.Endpoint as spec;
ghost use Rattle.handshake_state.specs.Bytes.{slot_by, endpoint_of};
ghost use Rattle.handshake_state.specs.Lookup.{kind_number, found};

use crate::bytes::SIZE;
use crate::kind::Kind;
use crate::record::Record;
use handshake_rules::endpoint::Sought;

fn is_of_kind(what: Sought, kind: Kind) -> bool
    ensures { result ≡ spec.of_kind what (kind_number kind) }
{
    match what {
        Sought::AnyFree => kind == Kind::Free,
        Sought::AcceptedFrom => kind == Kind::Accepted,
        Sought::StartedTo => kind == Kind::Started,
        Sought::ConnectedTo => kind == Kind::Connected,
        Sought::AnyTaken => kind != Kind::Free,
    }
}

#[inline(always)]
fn is_sought(held: Record, what: Sought, name: &[u8]) -> bool
    ensures { result ≡ spec.sought what name.now (slot_by held.entry.bytes.now) }
{
    if !is_of_kind(what, held.kind()) {
        return false;
    }
    match what {
        Sought::AnyFree => true,
        _ => wire::same_bytes(held.peer(), name),
    }
}

// The lowest slot that is sought. `(0..32).find` over `is_sought` was tried; its proof did not close.
// Inlined, as what is sought is known where it is called: as a call a start takes 1.6 times as long.
#[inline(always)]
pub fn find(state: &[u8; SIZE], what: Sought, name: &[u8]) -> Option<usize>
    ensures { result ≡ found (spec.lowest what name.now (endpoint_of state.now)) }
{
    for i in 0..32 {
        if is_sought(Record::of(state, i), what, name) {
            return Some(i);
        }
    }
    None
}
