// The program: its input is read in parts, and what a line gives is printed before the next is
// looked at.
ghost use Rattle.std.specs.Prelude.{◌<◌, ◌≡◌, [], length, IfOk, OnOk, OnErr};
ghost use Rattle.std.specs.Io.KnownBytes.{Appends};
ghost use Rattle.script_lines.specs.State.{script_of};
ghost use Rattle.script_lines.specs.Script.{started};
ghost use Rattle.script_lines.specs.Lines.{Takes, take_of, to_print, PrintedOn, PrintsAll, TakesUnprinted, PrintedUntil};

use crate::gather::{Held, line_end};
use crate::script::Run;
use crate::{ANSWER, PART};
use std::io;
use std::io::{Read, Write};

// A run inside a line of which some is held.
#[derive(Drop)]
pub(crate) struct Reading {
    run: Run,
    held: Held,
}

impl Reading {
    fn start() -> Reading
        ensures run { script_of result.run ≡ started }
        ensures held { result.held ≡ [] }
    {
        Reading {
            run: Run::start(),
            held: Held::new(),
        }
    }

    // Takes a line from a part of the input, or what is there of one. What it prints is written to `out`:
    // tells how many bytes that is, and the rest of the part.
    fn take<'a>(&mut self, part: &'a [u8], out: &mut [u8; ANSWER]) -> (usize, &'a [u8])
        ensures { Takes (take_of (script_of self.old.run) self.old.held part.now) self.new result.0 result.1.now out.old out.new }
    {
        match line_end(part) {
            None => {
                self.held.hold(part);
                (0, &part[part.len()..])
            }
            Some(end) => {
                self.held.hold(&part[..end]);
                let n = self.run.step(self.held.text(), out);
                self.held.clear();
                (n, &part[end + 1..])
            }
        }
    }

    // Takes a line and prints what it gives. An error is the writer's, of a line that prints: the registry
    // and the buffers are then as the line leaves them.
    fn take_line<'a, W: Write>(
        &mut self,
        part: &'a [u8],
        out: &mut [u8; ANSWER],
        to: &mut W,
    ) -> io::Result<&'a [u8]>
        requires { 0 < length part.now }
        ensures takes { IfOk result (λ rest. Takes (take_of (script_of self.old.run) self.old.held part.now) self.new (length (take_of (script_of self.old.run) self.old.held part.now).bytes) rest.now out.old out.new) }
        ensures goes { IfOk result (λ rest. length rest.now < length part.now) }
        ensures prints { OnOk result (Appends (W.contents to.old) (W.contents to.new) (take_of (script_of self.old.run) self.old.held part.now).bytes) }
        ensures unprinted { OnErr result (TakesUnprinted (take_of (script_of self.old.run) self.old.held part.now) self.new out.old out.new) }
    {
        let (n, rest) = self.take(part, out);
        if 0 < n {
            to.write_all(&out[..n])?;
        }
        Ok(rest)
    }

    // Takes all lines of a part, and holds what is there of the last. An error is the writer's, of the line
    // that was taken last.
    fn take_part<W: Write>(
        &mut self,
        part: &[u8],
        out: &mut [u8; ANSWER],
        to: &mut W,
    ) -> io::Result<()>
        ensures prints { OnOk result (PrintedOn (script_of self.old.run) self.old.held part.now (script_of self.new.run) self.new.held [] (W.contents to.old) (W.contents to.new)) }
        ensures unprinted { OnErr result (PrintedUntil (script_of self.old.run) self.old.held part.now self.new) }
    {
        let mut rest = part;
        while !rest.is_empty() {
            rest = self.take_line(rest, out, to)?;
        }
        Ok(())
    }

    // The input has ended: prints what is still to be printed.
    fn finish<W: Write>(&mut self, out: &mut [u8; ANSWER], to: &mut W) -> io::Result<()>
        ensures { OnOk result (Appends (W.contents to.old) (W.contents to.new) (to_print (script_of self.old.run) self.old.held [])) }
    {
        let n = self.run.finish(self.held.text(), out);
        to.write_all(&out[..n])
    }
}

// Nothing says that an input ends, and a proved loop has to: no run uses up so many reads.
pub fn run<R: Read, W: Write>(from: &mut R, to: &mut W) -> io::Result<()>
    ensures { OnOk result (PrintsAll (R.remaining from.old) (W.contents to.old) (W.contents to.new)) }
{
    let mut reading = Reading::start();
    let mut part = [0; PART];
    let mut out = [0; ANSWER];
    for _read in 0..u64::MAX {
        let n = from.read(&mut part)?;
        if n == 0 {
            return reading.finish(&mut out, to);
        }
        reading.take_part(&part[..n], &mut out, to)?;
        if reading.run.has_ended() {
            return Ok(());
        }
    }
    Ok(())
}
