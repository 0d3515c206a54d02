ghost use Rattle.std.specs.Prelude.{◌≡◌};
ghost use Rattle.epmd_rules.specs.Answers as spec;

use crate::refusal::Refusal;

// 01's number and values for an answer, for a host that cannot hold a `Result`: 0 is no refusal.
#[repr(C)]
#[derive(Clone, Copy, Debug, PartialEq, Eq)]
pub struct Numbers {
    pub refusal: u32,
    pub written: usize,
}

impl From<Result<usize, Refusal>> for Numbers {
    ghost from_gives = { λ answer numbers. numbers ≡ spec.numbers_of answer };

    fn from(answer: Result<usize, Refusal>) -> Numbers {
        match answer {
            Ok(written) => Numbers {
                refusal: 0,
                written,
            },
            Err(why) => Numbers {
                refusal: why.number(),
                written: 0,
            },
        }
    }
}

// The number for whether a registry was made: the refusal's, or 0. C takes it (`bks_registry_new`).
pub fn making_number(made: Result<(), Refusal>) -> u32
    ensures { result ≡ spec.making_number made }
{
    match made {
        Ok(()) => 0,
        Err(why) => why.number(),
    }
}
