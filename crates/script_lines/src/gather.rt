// The lines of an input that comes in parts, in a buffer of fixed size (01, The script program).
ghost use Rattle.std.specs.Prelude.{◌≡◌, [], ◌++◌, cond, ltb, length, Some, None};
ghost use Rattle.script_lines.specs.Lines.{up_to, kept};

use crate::HELD;
use std::marker::Model;

// Where the line ends that begins a part, if its newline is there.
pub(crate) fn line_end(part: &[u8]) -> Option<usize>
    ensures { result ≡ cond (ltb (length (up_to part.now)) (length part.now)) (Some (length (up_to part.now))) None }
{
    part.iter().position(|c| *c == b'\n')
}

// What is held of a line. A line over 800 characters is refused whatever it holds, so 801 bytes hold
// enough of any.
#[derive(Drop)]
pub(crate) struct Held {
    bytes: [u8; HELD],
    len: usize,
}

impl Model for Held {
    ghost use Rattle.std.specs.Prelude.{◌≤◌, List, ℕ, take};

    ghost Value = { List ℕ };

    ghost view = { λ h. take h.len h.bytes };

    ghost invariant = { λ h. h.len ≤ 801 };
}

impl Held {
    pub(crate) fn new() -> Held
        ensures { result ≡ [] }
    {
        Held {
            bytes: [0; HELD],
            len: 0,
        }
    }

    pub(crate) fn text(&self) -> &[u8]
        ensures { result.now ≡ self.now }
    {
        &self.bytes[..self.len]
    }

    // Adds characters, as many as there is room for.
    pub(crate) fn hold(&mut self, part: &[u8])
        ensures { self.new ≡ kept (self.old ++ part.now) }
    {
        let n = (HELD - self.len).min(part.len());
        wire::put_bytes(&mut self.bytes, self.len, &part[..n]);
        self.len += n;
    }

    pub(crate) fn clear(&mut self)
        ensures { self.new ≡ [] }
    {
        self.len = 0;
    }
}
