ghost use Rattle.std.specs.Prelude.{◌≡◌};
ghost use Rattle.handshake_rules.specs.Endpoint as state;

use names::Name;

// Free is the first: what is read past the end of an array is free.
#[derive(Clone, Copy, Debug, PartialEq, Eq)]
pub enum Stage {
    Free,
    AwaitsName,
    AwaitsAlive,
    AwaitsReply,
    AwaitsStatus,
    AwaitsChallenge,
    AwaitsAck,
    Connected,
}

// One connection: its stage, the peer's name, flags and creation, and the challenge that we sent. It
// holds no byte of a cookie and none of a digest.
#[derive(Clone, Copy)]
pub struct Slot {
    pub stage: Stage,
    pub name: Name,
    pub flags: u64,
    pub creation: u32,
    pub challenge: u32,
}

// What a call tells that is not refused. `count` is how many bytes it wrote; `freed` is another slot
// that the message freed.
#[derive(Clone, Copy, Debug, PartialEq, Eq)]
pub enum Answer {
    Begun {
        slot: usize,
        count: usize,
    },
    Arrived {
        slot: usize,
    },
    Closed,
    Answered {
        stage: Stage,
        freed: Option<usize>,
        count: usize,
    },
}

// Which slots are sought: any that is free, or, by the peer's name, an accepted one in progress, a
// started one in progress, a connected one, any that is taken.
#[derive(Clone, Copy, Debug, PartialEq, Eq)]
pub enum Sought {
    AnyFree,
    AcceptedFrom,
    StartedTo,
    ConnectedTo,
    AnyTaken,
}

// All of a free slot is zero or empty. By hand: a derive asks for a Default of Name and Stage, beside
// `Name::empty` and the first stage, which say the same.
impl Default for Slot {
    ghost is_default = { λ slot. slot ≡ state.free_slot };

    fn default() -> Slot {
        Slot {
            stage: Stage::Free,
            name: Name::empty(),
            flags: 0,
            creation: 0,
            challenge: 0,
        }
    }
}

impl Stage {
    // The stage's number, for a host that cannot hold the enum.
    pub fn number(self) -> u8
        ensures { result ≡ state.stage_number self }
    {
        self as u8
    }
}

// What is no stage's number is free: `stage_of` (specs/Endpoint) takes each, so this is no TryFrom.
impl From<u8> for Stage {
    ghost from_gives = { λ n stage. stage ≡ state.stage_of n };

    #[tactic(auto, unfolding(crate::specs::Endpoint::stage_of))]
    fn from(n: u8) -> Stage {
        match n {
            1 => Stage::AwaitsName,
            2 => Stage::AwaitsAlive,
            3 => Stage::AwaitsReply,
            4 => Stage::AwaitsStatus,
            5 => Stage::AwaitsChallenge,
            6 => Stage::AwaitsAck,
            7 => Stage::Connected,
            _ => Stage::Free,
        }
    }
}
