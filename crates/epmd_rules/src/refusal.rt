ghost use Rattle.std.specs.Prelude.{◌≡◌};
ghost use Rattle.epmd_rules.specs.Requests.{refusal_number};

// Why a call is refused, each with its number (01, Numbers that a refused caller sees).
#[derive(Clone, Copy, Debug, PartialEq, Eq)]
pub enum Refusal {
    OutputTooShort = 1,
    NotAFrame = 3,
    UnknownTag = 4,
    BadLength = 5,
    BadName = 6,
    BadVersions = 7,
    NotServed = 8,
    ZeroCreation = 17,
}

impl Refusal {
    // The number that a refused caller sees.
    pub fn number(self) -> u32
        ensures { result ≡ refusal_number self }
    {
        self as u32
    }
}
