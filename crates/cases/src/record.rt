// Cases stand in an input one behind the other, each behind its length in two bytes.
ghost use Rattle.std.specs.Prelude.{◌≡◌, ◌-◌, ◌<◌, ◌≤◌, length, IfSome};
ghost use Rattle.std.specs.Iterator.{at_most};
ghost use Rattle.cases.specs.Record.{record_at};
ghost use Rattle.cases.specs.Records.{GivesRecord};

use std::ops::Range;

// Where the case lies whose length stands at an offset, if it is there whole.
pub fn find(input: &[u8], at: usize) -> Option<Range<usize>>
    ensures value { result ≡ record_at input.now at }
    ensures within { IfSome result (λ r. (at < r.start) × (r.start ≤ r.end) × (r.end ≤ length input.now)) }
{
    if input.get(at..)?.len() < 2 {
        return None;
    }
    let start = at + 2;
    let size: u16 = wire::get(input, at);
    let end = start + size as usize;
    if input.len() < end {
        return None;
    }
    Some(start..end)
}

// The cases of an input from an offset on, up to the first that is not there whole.
#[derive(Clone, Copy)]
pub struct Records<'a> {
    pub input: &'a [u8],
    pub at: usize,
}

impl<'a> Iterator for Records<'a> {
    type Item = &'a [u8];

    ghost next_gives = { GivesRecord };

    ghost remaining = { λ s. at_most (length s.input.now - s.at) };

    fn next(&mut self) -> Option<&'a [u8]> {
        let place = find(self.input, self.at)?;
        self.at = place.end;
        Some(&self.input[place])
    }
}
