// What the program writes.
use cases::print::Hex;
use std::io;
use std::io::Write;

// The first n bytes in hexadecimal, or all where there are fewer, and the line's end.
pub(crate) fn bytes(to: &mut impl Write, s: &[u8], n: usize) -> io::Result<()> {
    writeln!(to, "{}", Hex(first(s, n)))
}

// The first n bytes, or all where there are fewer.
pub(crate) fn first(s: &[u8], n: usize) -> &[u8] {
    &s[..n.min(s.len())]
}
