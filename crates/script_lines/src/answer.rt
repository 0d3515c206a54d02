// The two lines of an answer (01, The script program).
ghost use Rattle.std.specs.Prelude.{◌≡◌, ◌≤◌, length};
ghost use Rattle.wire.specs.Output.{written};
ghost use Rattle.script_lines.specs.Answer.{answer_text};

use crate::text::put_hex;

// Writes `result=` and `hex=`, and tells their length.
#[tactic(auto, using(crate::proofs::AnswerLaws::answer_length))]
pub(crate) fn put_answer(out: &mut [u8], res: u32, reply: &[u8]) -> usize
    requires { length (answer_text res reply.now) ≤ length out.old }
    ensures value { result ≡ length (answer_text res reply.now) }
    ensures out_after { out.new ≡ written (answer_text res reply.now) out.old }
{
    wire::put_bytes(out, 0, b"result=");
    let d = wire::put_decimal(out, 7, res);
    let a = 7 + d;
    wire::put_bytes(out, a, b"\nhex=");
    let h = a + 5;
    put_hex(out, h, reply);
    let e = h + 2 * reply.len();
    wire::put_bytes(out, e, b"\n");
    e + 1
}
