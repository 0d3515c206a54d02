// Puts calls to two endpoints and prints what each tells, what it wrote and what a slot then holds:
// whole handshakes, a case for every refusal and one for every rule of every stage.
//
// stdin has the calls as cases. cases.py makes it, and makes stdout from a model of its own.
#![tactic(auto)]

ghost use Rattle.std.specs.Prelude.{◌≡◌, ◌≤◌, length};

use cases::input::{SPACE, records};
use cases::print::Hex;
use handshake::{SIZE, calls};
use handshake_rules::endpoint::Answer;
use handshake_rules::refusal::Refusal;
use read::{byte, number, part, rest};
use std::io;
use std::io::Write;

mod read;

// What a program prints of a refusal is its own: no Display of Why says it plainer for all.
fn tell_refusal(to: &mut impl Write, refusal: Refusal) -> io::Result<()> {
    let why = refusal.why();
    write!(to, "refused {} {} {}", why.number, why.missing, why.lowest)
}

fn tell_freed(to: &mut impl Write, freed: Option<usize>) -> io::Result<()> {
    match freed {
        None => write!(to, " -"),
        Some(slot) => write!(to, " {slot}"),
    }
}

// Prints an answer, and tells how many bytes were written.
fn tell(to: &mut impl Write, answer: Result<Answer, Refusal>) -> io::Result<usize> {
    match answer {
        Err(refusal) => {
            tell_refusal(to, refusal)?;
            Ok(0)
        }
        Ok(Answer::Begun { slot, count }) => {
            write!(to, "begun {slot} {count}")?;
            Ok(count)
        }
        Ok(Answer::Arrived { slot }) => {
            write!(to, "arrived {slot}")?;
            Ok(0)
        }
        Ok(Answer::Closed) => {
            write!(to, "closed")?;
            Ok(0)
        }
        Ok(
            Answer::Answered {
                stage,
                freed,
                count,
            },
        ) => {
            write!(to, "answered {}", stage.number())?;
            tell_freed(to, freed)?;
            write!(to, " {count}")?;
            Ok(count)
        }
    }
}

// How many bytes from an offset on are not as they were.
fn changed(out: &[u8], from: usize) -> usize {
    out.iter().skip(from).filter(|b| **b != 170).count()
}

// What was written; how many bytes behind it are not as they were, and how many in all.
fn print_output(to: &mut impl Write, out: &[u8], count: usize) -> io::Result<()> {
    let written = Hex(part(out, 0, count));
    write!(to, " {written} {} {}", changed(out, count), changed(out, 0))
}

fn make(to: &mut impl Write, e: &mut [u8; SIZE], r: &[u8]) -> io::Result<()> {
    match calls::make(e, rest(r, 14), number(r, 2), number(r, 10)) {
        Ok(()) => write!(to, "made"),
        Err(refusal) => tell_refusal(to, refusal),
    }
}

// An output that a call is lent: 170 in every byte. The length is said for lending a part of it.
fn output() -> [u8; 600]
    ensures { length result ≡ 600 }
{
    [170u8; 600]
}

// How much of it.
fn room(n: u16) -> usize
    ensures { result ≤ 600 }
{
    usize::from(n).min(600)
}

fn start(to: &mut impl Write, e: &mut [u8; SIZE], r: &[u8], out: &mut [u8]) -> io::Result<()> {
    let answer = calls::start(e, rest(r, 4), out);
    let count = tell(to, answer)?;
    print_output(to, out, count)
}

fn arrive(to: &mut impl Write, e: &mut [u8; SIZE]) -> io::Result<()> {
    tell(to, calls::arrive(e))?;
    Ok(())
}

fn close(to: &mut impl Write, e: &mut [u8; SIZE], r: &[u8]) -> io::Result<()> {
    let slot: u16 = number(r, 2);
    tell(to, calls::close(e, usize::from(slot)))?;
    Ok(())
}

fn message(to: &mut impl Write, e: &mut [u8; SIZE], r: &[u8], out: &mut [u8]) -> io::Result<()> {
    let slot: u16 = number(r, 2);
    let own = usize::from(number::<u16>(r, 10));
    let standard = usize::from(number::<u16>(r, 12));
    let answer = calls::message(
        e,
        usize::from(slot),
        rest(r, 14 + own + standard),
        number(r, 4),
        part(r, 14, own),
        part(r, 14 + own, standard),
        out,
    );
    let count = tell(to, answer)?;
    print_output(to, out, count)
}

// One function for this and the next would take the call as a closure over endpoint and output: no plainer.
fn start_in(to: &mut impl Write, e: &mut [u8; SIZE], r: &[u8]) -> io::Result<()> {
    let mut space = output();
    let n = room(number(r, 2));
    start(to, e, r, &mut space[..n])
}

fn message_in(to: &mut impl Write, e: &mut [u8; SIZE], r: &[u8]) -> io::Result<()> {
    let mut space = output();
    let n = room(number(r, 8));
    message(to, e, r, &mut space[..n])
}

fn show(to: &mut impl Write, e: &mut [u8; SIZE], r: &[u8]) -> io::Result<()> {
    let slot: u16 = number(r, 2);
    let s = calls::slot(e, usize::from(slot));
    let name = s.name.array();
    write!(
        to,
        "slot {} {}",
        s.stage.number(),
        Hex(part(&name, 0, s.name.size()))
    )?;
    write!(to, " {} {} {}", s.flags, s.creation, s.challenge)
}

fn act(to: &mut impl Write, e: &mut [u8; SIZE], r: &[u8]) -> io::Result<()> {
    match byte(r, 0) {
        b'n' => make(to, e, r),
        b's' => start_in(to, e, r),
        b'a' => arrive(to, e),
        b'c' => close(to, e, r),
        b'm' => message_in(to, e, r),
        _ => show(to, e, r),
    }
}

// By the case's second byte, on the one endpoint or the other.
fn step(
    to: &mut impl Write,
    one: &mut [u8; SIZE],
    two: &mut [u8; SIZE],
    r: &[u8],
) -> io::Result<()> {
    if byte(r, 1) == 0 {
        act(to, one, r)?;
    } else {
        act(to, two, r)?;
    }
    writeln!(to)
}

fn main(rt: HostRuntime) -> io::Result<()> {
    let mut space = [0u8; SPACE];
    let mut one = [0u8; SIZE];
    let mut two = [0u8; SIZE];
    let mut to = rt.stdout();
    for case in records(&mut rt.stdin(), &mut space)? {
        step(&mut to, &mut one, &mut two, case)?;
    }
    Ok(())
}
