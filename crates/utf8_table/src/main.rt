// Puts the rule of a node's name to byte sequences at every boundary of RFC 3629's table, to names at
// the bounds of length, and to plain names with other bytes at each place, and prints each with the
// answer.
//
// stdin has the sequences as cases. sequences.py makes it, and makes stdout from the answers of
// Python's own decoder.
#![tactic(auto)]

use cases::input::{SPACE, records};
use cases::print::Hex;
use std::io;
use std::io::Write;

// The answer is one piece: standard output is not buffered, and each piece is a write.
fn print(to: &mut impl Write, name: &[u8]) -> io::Result<()> {
    let answer = if names::is_node_name(name) {
        " yes\n"
    } else {
        " no\n"
    };
    write!(to, "{}{answer}", Hex(name))
}

fn main(rt: HostRuntime) -> io::Result<()> {
    let mut space = [0u8; SPACE];
    let mut to = rt.stdout();
    for name in records(&mut rt.stdin(), &mut space)? {
        print(&mut to, name)?;
    }
    Ok(())
}
