// A line for each length n: n and the digest of the first n bytes of one pattern. The lengths pass every boundary of the padding
// (55, 56, 63 and 64 bytes past a whole block) several times. What is expected was made by another implementation, Python's hashlib.
#![tactic(auto)]

use cases::print::Hex;
use std::io::Write;
use std::{array, io};

fn show(to: &mut impl Write, text: &[u8]) -> io::Result<()> {
    let digest = md5_digest::digest(text);
    writeln!(to, "{} {}", text.len(), Hex(&digest))
}

fn lines(to: &mut impl Write, text: &[u8; 4096]) -> io::Result<()> {
    for n in 0..301 {
        show(to, &text[..n])?;
    }
    show(to, &text[..1000])?;
    show(to, &text[..4095])?;
    show(to, text)
}

fn main(rt: HostRuntime) -> io::Result<()> {
    // Byte j is 31 j + j / 256 modulo 256, so that no two blocks of the pattern are the same.
    let text = array::from_fn(|j| ((j % 256 * 31 + j / 256) % 256) as u8);
    lines(&mut rt.stdout(), &text)
}
