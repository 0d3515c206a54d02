// A slot's record, as specs/Bytes lays it out: where its fields lie, and what is read there. Offsets
// and widths of a record stand here and nowhere else.
ghost use Rattle.std.specs.Prelude.{◌≡◌, ◌<◌, [], ◌∷◌, length};
ghost use Rattle.wire.specs.Run.{part};
ghost use Rattle.wire.specs.Layout.{encode, int};
ghost use Rattle.names.specs.Held.{name_bytes};
ghost use Rattle.handshake_rules.specs.Endpoint as spec;
ghost use Rattle.handshake_state.specs.Bytes.{numbers_l, slot_size, record_at, slot_by};
ghost use Rattle.handshake_state.specs.Lookup.{kind_number};

use crate::bytes::{OWN, SIZE};
use crate::kind::Kind;
use handshake_rules::endpoint::{Slot, Stage};
use names::Name;

const FLAGS: usize = 0;

const CREATION: usize = FLAGS + 8;

const CHALLENGE: usize = CREATION + 4;

const STAGE: usize = CHALLENGE + 4;

const LEN: usize = STAGE + 1;

pub(crate) const NAME: usize = LEN + 1;

pub(crate) const RECORD: usize = NAME + 255;

// The bytes of a record, where they lie.
#[derive(Clone, Copy)]
pub struct Record<'a> {
    pub bytes: &'a [u8],
    pub ghost whole: { length bytes.now ≡ slot_size },
}

#[tactic(auto, using(wire::proofs::RunLaws::part_length, wire::proofs::TableLaws::part_within), unfolding(crate::specs::Bytes::slot_by, names::specs::Held::name_bytes))]
impl<'a> Record<'a> {
    // The record of a slot.
    pub fn of(state: &'a [u8; SIZE], at: usize) -> Record<'a>
        requires { at < 32 }
        ensures { result.bytes.now ≡ part (record_at at) slot_size state.now }
    {
        let bytes = wire::get_part(state, OWN + at * RECORD, RECORD);
        Record { bytes }
    }

    pub fn stage(self) -> Stage
        ensures { result ≡ (slot_by self.entry.bytes.now).stage }
    {
        Stage::from(wire::get::<u8>(self.bytes, STAGE))
    }

    pub fn kind(self) -> Kind
        ensures { kind_number result ≡ spec.kind (slot_by self.entry.bytes.now).stage }
    {
        Kind::from(self.stage())
    }

    // The peer's name. Read alike elsewhere, at other offsets: one function over those would be no plainer.
    pub fn peer(self) -> &'a [u8]
        ensures { result.now ≡ name_bytes (slot_by self.entry.bytes.now).name }
    {
        let len = wire::get::<u8>(self.bytes, LEN) as usize;
        wire::get_part(self.bytes, NAME, len)
    }

    // All that the record holds, as a value.
    pub fn slot(self) -> Slot
        ensures { result ≡ slot_by self.entry.bytes.now }
    {
        let bytes = self.bytes;
        Slot {
            stage: self.stage(),
            name: Name::held(wire::get_part(bytes, NAME, 255), wire::get(bytes, LEN)),
            flags: wire::get(bytes, FLAGS),
            creation: wire::get(bytes, CREATION),
            challenge: wire::get(bytes, CHALLENGE),
        }
    }
}

// A slot's record up to the name.
pub(crate) fn numbers(slot: Slot) -> [u8; NAME]
    ensures { result ≡ encode numbers_l (int slot.flags ∷ int slot.creation ∷ int slot.challenge ∷ int (spec.stage_number slot.stage) ∷ int slot.name.len ∷ []) }
{
    let mut b = [0u8; NAME];
    wire::put(&mut b, FLAGS, slot.flags);
    wire::put(&mut b, CREATION, slot.creation);
    wire::put(&mut b, CHALLENGE, slot.challenge);
    wire::put(&mut b, STAGE, slot.stage.number());
    wire::put(&mut b, LEN, slot.name.size() as u8);
    b
}
