// What single lines of a script are (01, The script program), at the bounds of each rule: `script` itself
// shows one refused line a run. Each is printed with its item; stdout was written by hand from 01.
#![tactic(auto)]

use cases::print::word;
use script_lines::Item;
use std::io;
use std::io::Write;

const OPERATIONS: [&[u8]; 7] = [
    b"op=req",
    b"",
    b"op=re",
    b"op=reqs",
    b"OP=req",
    b" op=req",
    b"op=close",
];

const CONNECTIONS: [&[u8]; 6] = [
    b"conn=0",
    b"conn=9",
    b"conn=4294967295",
    b"conn=4294967296",
    b"conn=10000000000",
    b"conn=18446744073709551625",
];

const BAD_CONNECTIONS: [&[u8]; 8] = [
    b"conn=", b"conn=00", b"conn=09", b"conn=-1", b"conn=1 ", b"conn=a", b"conn=/", b"conn=:",
];

const FRAMES: [&[u8]; 8] = [
    b"hex=",
    b"hex=09af",
    b"hex=0",
    b"hex=09AF",
    b"hex=0g",
    b"hex=0/",
    b"hex=0:",
    b"hex=0`",
];

const KEYS: [&[u8]; 5] = [b"hex", b"hex:00", b"conn", b"req", b"result=0"];

// Not a Display of Item, which would be no plainer: the words are this program's own, and a malformed
// line, which is no Item, has one too.
fn print_item(to: &mut impl Write, line: &[u8]) -> io::Result<()> {
    match script_lines::item_of(line) {
        Some(Item::Op) => writeln!(to, "op"),
        Some(Item::Conn(n)) => writeln!(to, "conn {n}"),
        Some(Item::Hex) => writeln!(to, "hex"),
        None => writeln!(to, "malformed"),
    }
}

fn show(to: &mut impl Write, lines: &[&[u8]]) -> io::Result<()> {
    for line in lines {
        word(to, line)?;
        write!(to, " is ")?;
        print_item(to, line)?;
    }
    Ok(())
}

fn carriage_return(to: &mut impl Write) -> io::Result<()> {
    write!(to, "op=req with a carriage return is ")?;
    print_item(to, b"op=req\r")
}

fn lengths(to: &mut impl Write) -> io::Result<()> {
    let mut line = [b'0'; 802];
    line[..4].copy_from_slice(b"hex=");
    for n in 800..803 {
        write!(to, "hex= and digits, in all {n} characters, is ")?;
        print_item(to, &line[..n])?;
    }
    Ok(())
}

fn main(rt: HostRuntime) -> io::Result<()> {
    let mut to = rt.stdout();
    show(&mut to, &OPERATIONS)?;
    carriage_return(&mut to)?;
    show(&mut to, &CONNECTIONS)?;
    show(&mut to, &BAD_CONNECTIONS)?;
    show(&mut to, &FRAMES)?;
    show(&mut to, &KEYS)?;
    lengths(&mut to)
}
