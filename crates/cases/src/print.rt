// What a program writes. Nothing says what reaches a program's standard output: that is compared
// with its stdout. An error is the writer's, which may have taken a part by then.
ghost use Rattle.std.specs.Prelude.{OnOk, Some, flat_map};
ghost use Rattle.std.specs.Io.KnownBytes.{Appends};
ghost use Rattle.cases.specs.Print.{hex_of_byte};

use std::io::Write;
use std::{fmt, io};

// Bytes as they stand, which may be no text.
pub fn word<W: Write>(to: &mut W, text: &[u8]) -> io::Result<()>
    ensures { OnOk result (Appends (W.contents to.old) (W.contents to.new) text.now) }
{
    to.write_all(text)
}

// Bytes in hexadecimal, two digits each.
#[derive(Clone, Copy)]
pub struct Hex<'a>(pub &'a [u8]);

impl<'a> fmt::Display for Hex<'a> {
    ghost output = { λ s. Some (flat_map hex_of_byte s.0.now) };

    fn fmt<W: fmt::Write>(&self, f: &mut fmt::Formatter<W>) -> fmt::Result {
        for &b in self.0 {
            write!(f, "{b:02x}")?;
        }
        Ok(())
    }
}
