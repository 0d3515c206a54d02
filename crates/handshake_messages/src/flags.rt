// The flag test (02, P3), in the form that 01 names: a count of ones and of trailing zeros of the
// required flags that the peer's flags lack.
ghost use Rattle.std.specs.Prelude.{◌≡◌};
ghost use Rattle.handshake_rules.specs.Flags.{flag_test};

use handshake_rules::flags::FlagFlaw;

// Bits 2, 8, 24, 25 and 34.
const REQUIRED: u64 = 0x403000104;

// Bit 33, DFLAG_NAME_ME: a dynamic name is asked for.
const NAME_ME: u64 = 0x200000000;

pub fn flag_test(flags: u64) -> Result<(), FlagFlaw>
    ensures { result ≡ flag_test flags }
{
    let lacking = REQUIRED & !flags;
    if lacking != 0 {
        return Err(FlagFlaw::Missing {
            count: u64::count_ones(lacking),
            lowest: u64::trailing_zeros(lacking),
        });
    }
    if flags & NAME_ME != 0 {
        return Err(FlagFlaw::NameMe);
    }
    Ok(())
}
