// Prints digests of the proved handshake, a line each: the challenge, the cookie in hexadecimal, and
// the digest.
//
// stdin has challenges with cookies as cases. cases.py makes it, and makes stdout from what other
// implementations gave: digests of captured handshakes, as nodes of Erlang/OTP 25 and their peers sent
// them, and those of Python's hashlib.
#![tactic(auto)]

use cases::input::{SPACE, records};
use cases::print::Hex;
use handshake_messages::cookie::digest;
use std::io;
use std::io::Write;

// A challenge in four bytes, and a cookie of 1 to 255 behind it; else there is nothing to print.
fn show(to: &mut impl Write, case: &[u8]) -> io::Result<()> {
    match case.split_first_chunk() {
        Some((challenge, cookie)) if 0 < cookie.len() && cookie.len() <= 255 => {
            let challenge = u32::from_be_bytes(*challenge);
            let digest = digest(challenge, cookie);
            writeln!(to, "{challenge} {} {}", Hex(cookie), Hex(&digest))
        }
        _ => Ok(()),
    }
}

fn main(rt: HostRuntime) -> io::Result<()> {
    let mut space = [0u8; SPACE];
    let mut to = rt.stdout();
    for case in records(&mut rt.stdin(), &mut space)? {
        show(&mut to, case)?;
    }
    Ok(())
}
