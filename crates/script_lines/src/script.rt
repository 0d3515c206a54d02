// A run of a script (01, The script program), line by line.
ghost use Rattle.std.specs.Prelude.{◌≡◌, ◌≤◌, true, [], length};
ghost use Rattle.wire.specs.Output.{written};
ghost use Rattle.epmd_rules.specs.Requests.{room};
ghost use Rattle.epmd_rules.specs.Serve.{request_of};
ghost use Rattle.epmd_state.specs.Bytes.{registry_of};
ghost use Rattle.script_lines.specs.State.{script_of};
ghost use Rattle.script_lines.specs.Text.{is_hex, unhex};
ghost use Rattle.script_lines.specs.Script.{plan_of, inside_group, has_ended, Steps, answered, failure, line_of, ending, started};
ghost use Rattle.script_lines.specs.Lines.{to_print};

use crate::ANSWER;
use crate::answer::put_answer;
use crate::line::{Item, item_of};
use crate::text::get_hex;
use epmd::{ROOM, SIZE};

// The line that is awaited; with the frame, the connection that it comes from. Nothing: the run has
// ended.
#[derive(Clone, Copy)]
pub enum Awaits {
    Operation,
    Connection,
    Frame(u32),
    Nothing,
}

// What a line has the run do.
#[derive(Clone, Copy)]
pub(crate) enum Plan {
    Await(Awaits),
    Serve(u32),
    Fail,
    Rest,
}

// A run between lines: its mapper's registry, and the line that is awaited.
#[derive(Drop)]
pub(crate) struct Run {
    registry: [u8; SIZE],
    awaits: Awaits,
}

fn plan_of(awaits: Awaits, item: Option<Item>) -> Plan
    ensures { result ≡ plan_of awaits item }
{
    match (awaits, item) {
        (Awaits::Operation, Some(Item::Op)) => Plan::Await(Awaits::Connection),
        (Awaits::Connection, Some(Item::Conn(n))) => Plan::Await(Awaits::Frame(n)),
        (Awaits::Frame(c), Some(Item::Hex)) => Plan::Serve(c),
        (Awaits::Nothing, _) => Plan::Rest,
        _ => Plan::Fail,
    }
}

// Whether a group has begun: an input that ends here ends inside it.
fn inside_group(awaits: Awaits) -> bool
    ensures { result ≡ inside_group awaits }
{
    matches!(awaits, Awaits::Connection | Awaits::Frame(_))
}

// The script's own number.
fn fail(out: &mut [u8; ANSWER]) -> usize
    ensures value { result ≡ length failure }
    ensures out_after { out.new ≡ written failure out.old }
{
    put_answer(out, 19, b"")
}

// What the input's end prints: an input that ends inside a group fails.
fn end(awaits: Awaits, out: &mut [u8; ANSWER]) -> usize
    ensures value { result ≡ length (ending awaits) }
    ensures out_after { out.new ≡ written (ending awaits) out.old }
{
    if inside_group(awaits) {
        return fail(out);
    }
    0
}

// What a call prints it writes from the first byte of `out` on, and it tells how many bytes that is.
impl Run {
    // A run that has read nothing yet: a mapper of port 4369 and first creation 1.
    pub(crate) fn start() -> Run
        ensures { script_of result ≡ started }
    {
        let mut registry = [0; SIZE];
        // Creation 1 is not refused.
        let _ = epmd::make(&mut registry, 4369, 1);
        Run {
            registry,
            awaits: Awaits::Operation,
        }
    }

    // Whether the run has ended, so that nothing more is to be read.
    pub(crate) fn has_ended(&self) -> bool
        ensures { result ≡ has_ended self.now.awaits }
    {
        matches!(self.awaits, Awaits::Nothing)
    }

    // The answer to a frame that is lent as text.
    fn serve(&mut self, connection: u32, text: &[u8], out: &mut [u8; ANSWER]) -> usize
        requires { (is_hex text.now ≡ true) × (length text.now ≤ 796) }
        ensures { Steps (answered (request_of (registry_of self.old.registry) connection (unhex text.now) room)) self.new result out.old out.new }
    {
        let mut frame = [0u8; 398];
        let mut reply = [0u8; ROOM];
        let n = get_hex(text, &mut frame);
        self.awaits = Awaits::Operation;
        match epmd::request(&mut self.registry, connection, &frame[..n], &mut reply) {
            Ok(count) => put_answer(out, 0, &reply[..count]),
            Err(why) => put_answer(out, why.number(), b""),
        }
    }

    // A line, without its newline.
    pub(crate) fn step(&mut self, line: &[u8], out: &mut [u8; ANSWER]) -> usize
        ensures { Steps (line_of (script_of self.old) line.now) self.new result out.old out.new }
    {
        match plan_of(self.awaits, item_of(line)) {
            Plan::Await(next) => {
                self.awaits = next;
                0
            }
            Plan::Serve(connection) => self.serve(connection, &line[4..], out),
            Plan::Fail => {
                self.awaits = Awaits::Nothing;
                fail(out)
            }
            Plan::Rest => 0,
        }
    }

    // The input has ended: its last line may lack its newline, and is then what is held. All that is still
    // to be printed; a line that prints leaves nothing to the end.
    pub(crate) fn finish(&mut self, held: &[u8], out: &mut [u8; ANSWER]) -> usize
        ensures value { result ≡ length (to_print (script_of self.old) held.now []) }
        ensures out_after { out.new ≡ written (to_print (script_of self.old) held.now []) out.old }
    {
        if held.len() == 0 {
            return end(self.awaits, out);
        }
        let n = self.step(held, out);
        if n == 0 {
            return end(self.awaits, out);
        }
        n
    }
}
