// What the flag test answers (02, P3).
ghost use Rattle.std.specs.Prelude.{◌≡◌};
ghost use Rattle.handshake_rules.specs.Flags.{flaw_count, flaw_bit};

// Why flags are not good: how many required bits are missing and the lowest of them by its number; or,
// where none is missing, that bit 33 (DFLAG_NAME_ME: a dynamic name is asked for) is set.
#[derive(Clone, Copy, Debug, PartialEq, Eq)]
pub enum FlagFlaw {
    Missing { count: u32, lowest: u32 },
    NameMe,
}

impl FlagFlaw {
    // How many required bits are missing; 0 where none is, as a host reads it (02, P3).
    pub fn count(self) -> u32
        ensures { result ≡ flaw_count self }
    {
        match self {
            FlagFlaw::Missing { count, lowest } => count,
            FlagFlaw::NameMe => 0,
        }
    }

    // The lowest missing bit, or 33, as a host reads it (02, P3).
    pub fn bit(self) -> u32
        ensures { result ≡ flaw_bit self }
    {
        match self {
            FlagFlaw::Missing { count, lowest } => lowest,
            FlagFlaw::NameMe => 33,
        }
    }
}
