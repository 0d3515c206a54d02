ghost use Rattle.std.specs.Prelude.{◌≡◌};
ghost use Rattle.epmd_client_rules.specs.Answers.{unreadable_number};

// Why a reply is not read, with the number that a refused caller sees: another tag, a length that
// disagrees (NAMES: no reading at all), more readings than one.
#[derive(Clone, Copy, Debug, PartialEq, Eq)]
pub enum Unreadable {
    WrongTag = 4,
    WrongLength = 5,
    Ambiguous = 20,
}

impl Unreadable {
    pub fn number(self) -> u32
        ensures { result ≡ unreadable_number self }
    {
        self as u32
    }
}
