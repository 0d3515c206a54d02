// RFC 1321's test suite, written as the RFC writes it (A.5).
#![tactic(auto)]

use cases::print::Hex;
use std::io;
use std::io::Write;

// The RFC's texts, in its order.
const TEXTS: [&str; 7] = [
    "",
    "a",
    "abc",
    "message digest",
    "abcdefghijklmnopqrstuvwxyz",
    "ABCDEFGHIJKLMNOPQRSTUVWXYZabcdefghijklmnopqrstuvwxyz0123456789",
    "12345678901234567890123456789012345678901234567890123456789012345678901234567890",
];

fn main(rt: HostRuntime) -> io::Result<()> {
    let mut to = rt.stdout();
    writeln!(to, "MD5 test suite:")?;
    for text in TEXTS {
        let digest = md5_digest::digest(text.as_bytes());
        writeln!(to, "MD5 (\"{text}\") = {}", Hex(&digest))?;
    }
    Ok(())
}
