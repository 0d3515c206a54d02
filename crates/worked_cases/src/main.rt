// 01's frames worked by hand, C1 to C10, P2's Results and P3's flags, run through the code: a line a
// case, with the bytes or the numbers that it gives. stdout was written by hand from 01 and 02. That C1
// to C9 and the flags hold of the definitions are theorems of `worked`.
#![tactic(auto)]

use bounds::{show_bounds, show_results};
use epmd::{ROOM, SIZE};
use flags::show_flags;
use handshake::{ROOM as MESSAGE, SIZE as ENDPOINT};
use print::{bytes, first};
use std::io;
use std::io::Write;

mod bounds;
mod flags;
mod print;

// Puts a frame to the mapper, and prints the reply or the refusal.
pub(crate) fn ask(
    to: &mut impl Write,
    state: &mut [u8; SIZE],
    connection: u32,
    frame: &[u8],
) -> io::Result<()> {
    let mut out = [0u8; ROOM];
    match epmd::request(state, connection, frame, &mut out) {
        Ok(n) => bytes(to, &out, n),
        Err(refusal) => writeln!(to, "refused {}", refusal.number()),
    }
}

// C1 to C4, on one mapper: the frame of C1 and C4 is ALIVE2 of ride, port 4370.
fn show_mapper(to: &mut impl Write, alive2: &[u8]) -> io::Result<()> {
    let mut state = [0u8; SIZE];
    let _ = epmd::make(&mut state, 4369, 4);
    write!(to, "C1: ")?;
    ask(to, &mut state, 1, alive2)?;
    write!(to, "C2: ")?;
    ask(to, &mut state, 2, b"\x00\x05zride")?;
    write!(to, "C3: ")?;
    ask(to, &mut state, 2, b"\x00\x03zno")?;
    write!(to, "C4: ")?;
    ask(to, &mut state, 2, alive2)
}

// C5: what a@b writes when it starts towards b@b. C6: what b@b writes first when it gets that.
fn show_messages(to: &mut impl Write) -> io::Result<()> {
    let mut a = [0u8; ENDPOINT];
    let mut b = [0u8; ENDPOINT];
    let mut out = [0u8; MESSAGE];
    let mut back = [0u8; MESSAGE];
    let _ = handshake::calls::make(&mut a, b"a@b", 0x403000104, 7);
    let _ = handshake::calls::make(&mut b, b"b@b", 0x403000104, 8);
    let _ = handshake::calls::start(&mut a, b"b@b", &mut out);
    write!(to, "C5: ")?;
    bytes(to, &out, 20)?;
    let _ = handshake::calls::arrive(&mut b);
    let _ = handshake::calls::message(&mut b, 0, first(&out, 20), 9, b"", b"cookie", &mut back);
    write!(to, "C6: ")?;
    bytes(to, &back, 5)
}

// C7 and C8: how two names compare.
fn compare(to: &mut impl Write, a: &[u8], b: &[u8]) -> io::Result<()> {
    writeln!(to, "{}", wire::number_of(wire::compare(a, b)))
}

fn show_names(to: &mut impl Write) -> io::Result<()> {
    write!(to, "C7: ")?;
    compare(to, b"a@b", b"a@bc")?;
    write!(to, "C8: ")?;
    compare(to, b"b@a", b"a@z")
}

// C9: a challenge as text.
fn show_text(to: &mut impl Write) -> io::Result<()> {
    let mut out = [0u8; 10];
    let n = wire::put_decimal(&mut out, 0, 0);
    write!(to, "C9: ")?;
    bytes(to, &out, n)
}

fn main(rt: HostRuntime) -> io::Result<()> {
    let mut to = rt.stdout();
    show_mapper(
        &mut to,
        b"\x00\x11\x78\x11\x12\x4d\x00\x00\x06\x00\x05\x00\x04ride\x00\x00",
    )?;
    show_messages(&mut to)?;
    show_names(&mut to)?;
    show_text(&mut to)?;
    show_bounds(&mut to)?;
    show_results(&mut to)?;
    show_flags(&mut to)
}
