ghost use Rattle.std.specs.Prelude.{◌≡◌};
ghost use Rattle.handshake_rules.specs.declared.refusal.Refusal.TheVariants.{BadFlags};
ghost use Rattle.handshake_rules.specs.Refusals.{why_of, message_fate, is_free};

use crate::flags::FlagFlaw;

#[derive(Clone, Copy, Debug, PartialEq, Eq)]
pub enum Refusal {
    OutputTooShort,
    SlotNotTaken,
    NotAFrame,
    UnknownTag,
    BadLength,
    BadName,
    BadFlags(FlagFlaw),
    AlreadyConnected,
    BadCookie,
    PeerTaken,
    NoFreeSlot,
    UnknownStatus,
    WrongDigest,
    Declined,
}

// Flags that are not good, wherever they come from.
impl From<FlagFlaw> for Refusal {
    ghost from_gives = { λ flaw e. e ≡ BadFlags flaw };

    fn from(wrong: FlagFlaw) -> Refusal {
        Refusal::BadFlags(wrong)
    }
}

// What a refused caller sees, C too, which has no enum: the number and, beside 9, how many required flags are missing and the
// lowest of them by its bit, or 0 and 33. Beside all else both are 0; and all three where nothing is
// refused.
#[derive(Clone, Copy, Debug, Default, PartialEq, Eq)]
pub struct Why {
    pub number: u32,
    pub missing: u32,
    pub lowest: u32,
}

impl Refusal {
    // No cast: what BadFlags carries forbids one.
    fn number(self) -> u32
        ensures { result ≡ (why_of self).number }
    {
        match self {
            Refusal::OutputTooShort => 1,
            Refusal::SlotNotTaken => 2,
            Refusal::NotAFrame => 3,
            Refusal::UnknownTag => 4,
            Refusal::BadLength => 5,
            Refusal::BadName => 6,
            Refusal::BadFlags(_) => 9,
            Refusal::AlreadyConnected => 10,
            Refusal::BadCookie => 11,
            Refusal::PeerTaken => 12,
            Refusal::NoFreeSlot => 13,
            Refusal::UnknownStatus => 14,
            Refusal::WrongDigest => 15,
            Refusal::Declined => 16,
        }
    }

    fn missing(self) -> u32
        ensures { result ≡ (why_of self).missing }
    {
        match self {
            Refusal::BadFlags(flaw) => flaw.count(),
            _ => 0,
        }
    }

    fn lowest(self) -> u32
        ensures { result ≡ (why_of self).lowest }
    {
        match self {
            Refusal::BadFlags(flaw) => flaw.bit(),
            _ => 0,
        }
    }

    // The numbers that a refused caller sees.
    pub fn why(self) -> Why
        ensures { result ≡ why_of self }
    {
        Why {
            number: self.number(),
            missing: self.missing(),
            lowest: self.lowest(),
        }
    }

    // Whether a message that is refused so frees the slot named; if not, everything is kept.
    pub fn frees(self) -> bool
        ensures { result ≡ is_free (message_fate self) }
    {
        match self {
            Refusal::OutputTooShort
            | Refusal::SlotNotTaken
            | Refusal::AlreadyConnected
            | Refusal::BadCookie
            | Refusal::PeerTaken
            | Refusal::NoFreeSlot => false,
            Refusal::NotAFrame
            | Refusal::UnknownTag
            | Refusal::BadLength
            | Refusal::BadName
            | Refusal::BadFlags(_)
            | Refusal::UnknownStatus
            | Refusal::WrongDigest
            | Refusal::Declined => true,
        }
    }
}
