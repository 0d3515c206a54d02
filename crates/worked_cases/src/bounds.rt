// C10: the longest name and one byte more, the most extra bytes and one more, the last place and one
// more. P2: what each Result is told for, and which test comes first.
ghost use Rattle.std.specs.Prelude.{◌≤◌};

use crate::ask;
use crate::print::first;
use epmd::{ROOM, SIZE};
use std::io;
use std::io::Write;

fn digit(n: usize) -> u8 {
    (48 + n % 10) as u8
}

// An ALIVE2 frame of port 4370 and versions 6 and 5, by the lengths of its name and extra bytes. The
// name begins with two digits, a number of its own; all behind is 'a'. With the frame comes how many
// bytes it has.
fn alive2(nlen: usize, elen: usize, number: usize) -> ([u8; 400], usize)
    requires { (nlen ≤ 256) × (elen ≤ 129) }
{
    let len = 13 + nlen + elen;
    let mut f = [97u8; 400];
    wire::put(&mut f, 13 + nlen, elen as u16);
    wire::put(&mut f, 0, len as u16);
    wire::put_bytes(&mut f, 2, b"\x78\x11\x12\x4d\x00\x00\x06\x00\x05");
    wire::put(&mut f, 11, nlen as u16);
    f[13] = digit(number / 10);
    f[14] = digit(number);
    (f, 2 + len)
}

// A first registration with a name and extra bytes of these lengths.
fn show_lengths(to: &mut impl Write, nlen: usize, elen: usize) -> io::Result<()>
    requires { (nlen ≤ 256) × (elen ≤ 129) }
{
    let mut state = [0u8; SIZE];
    let _ = epmd::make(&mut state, 4369, 1);
    let (frame, size) = alive2(nlen, elen, 0);
    ask(to, &mut state, 1, first(&frame, size))
}

// Registers a name and a connection, both told by a number.
fn register(state: &mut [u8; SIZE], number: usize)
    requires { number ≤ 64 }
{
    let (frame, size) = alive2(4, 0, number);
    let mut out = [0u8; ROOM];
    let _ = epmd::request(state, number as u32, first(&frame, size), &mut out);
}

// A mapper with this many registrations.
fn make_with(state: &mut [u8; SIZE], many: usize)
    requires { many ≤ 64 }
{
    let _ = epmd::make(state, 4369, 1);
    for i in 0..many {
        register(state, i);
    }
}

// ALIVE2 with a name on a connection, both told by a number, at a mapper with this many registrations.
fn show_result(to: &mut impl Write, many: usize, connection: usize, number: usize) -> io::Result<()>
    requires { (many ≤ 64) × (connection ≤ 64) }
{
    let mut state = [0u8; SIZE];
    make_with(&mut state, many);
    let (frame, size) = alive2(4, 0, number);
    ask(to, &mut state, connection as u32, first(&frame, size))
}

// The lowest place is that of name 0 and connection 0. C10's 65th registration is Result 3.
pub(crate) fn show_results(to: &mut impl Write) -> io::Result<()> {
    write!(to, "P2 name in use, on another connection: ")?;
    show_result(to, 1, 1, 0)?;
    write!(to, "P2 name in use, on its own connection: ")?;
    show_result(to, 1, 0, 0)?;
    write!(to, "P2 connection with a registration: ")?;
    show_result(to, 1, 0, 1)?;
    write!(to, "P2 name in use, on its own connection, no place: ")?;
    show_result(to, 64, 0, 0)?;
    write!(to, "P2 connection with a registration, no place: ")?;
    show_result(to, 64, 0, 64)
}

pub(crate) fn show_bounds(to: &mut impl Write) -> io::Result<()> {
    write!(to, "C10 name of 255 bytes: ")?;
    show_lengths(to, 255, 0)?;
    write!(to, "C10 name of 256 bytes: ")?;
    show_lengths(to, 256, 0)?;
    write!(to, "C10 Elen 128: ")?;
    show_lengths(to, 4, 128)?;
    write!(to, "C10 Elen 129: ")?;
    show_lengths(to, 4, 129)?;
    write!(to, "C10 64th registration: ")?;
    show_result(to, 63, 63, 63)?;
    write!(to, "C10 65th registration: ")?;
    show_result(to, 64, 64, 64)
}
