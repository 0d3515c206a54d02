// Replies (01, The mapper), written from the first byte of the output on.
ghost use Rattle.std.specs.Prelude.{◌≡◌, ◌+◌, ◌≤◌, [], ◌∷◌, length};
ghost use Rattle.wire.specs.Decimal.{decimal};
ghost use Rattle.wire.specs.Output.{overwrite, written};
ghost use Rattle.wire.specs.Layout.{encode, int, number};
ghost use Rattle.epmd_rules.specs.Messages.{port2_head};
ghost use Rattle.epmd_rules.specs.Requests.{line_room};
ghost use Rattle.epmd_rules.specs.Replies.{creation_field, alive2_reply, port2_with, port2_missing, line_with};

use crate::runs::put_run;
use epmd_rules::registration::Node;
use wire::BigEndian;

// The longest line of a NAMES reply, and the longest reply: what every frame call asks for.
pub const LINE: usize = 275;

pub const ROOM: usize = 4 + 64 * LINE;

// With a Result above 0 the creation field is 0.
fn creation_field(res: u8, creation: u32) -> u32
    ensures value { result ≡ creation_field res creation }
    ensures upper_bound { result ≤ creation }
{
    if res == 0 { creation } else { 0 }
}

// Writes tag, Result and the creation field, and tells how many bytes these are.
fn put_alive2_resp<T: BigEndian>(out: &mut [u8], tag: u8, res: u8, creation: T) -> usize
    requires { 2 + T.WIDTH ≤ length out.old }
    ensures value { result ≡ 2 + T.WIDTH }
    ensures out_after { out.new ≡ written (encode (number 1 ∷ number 1 ∷ number T.WIDTH ∷ []) (int tag ∷ int res ∷ int (T.value creation) ∷ [])) out.old }
{
    wire::put(out, 0, tag);
    wire::put(out, 1, res);
    wire::put(out, 2, creation);
    2 + T::WIDTH
}

// Writes the reply to ALIVE2_REQ, and tells its length. Result is a byte, since `alive2_reply`, which
// this promises, is defined for each.
#[tactic(auto, unfolding(epmd_rules::specs::Replies::alive2_reply))]
pub fn put_alive2_reply(out: &mut [u8], highest: u16, res: u8, creation: u32) -> usize
    requires { 6 ≤ length out.old }
    ensures value { result ≡ length (alive2_reply highest res creation) }
    ensures out_after { out.new ≡ written (alive2_reply highest res creation) out.old }
{
    if 6 <= highest {
        return put_alive2_resp(out, 118, res, creation_field(res, creation));
    }
    put_alive2_resp(out, 121, res, creation_field(res, 1 + creation % 3) as u16)
}

// All of PORT2_RESP before its name of n bytes.
#[tactic(auto, unfolding(wire::specs::Output::overwrite))]
fn port2_head(node: Node, n: u16) -> [u8; 12]
    ensures { result ≡ encode port2_head (int 119 ∷ int 0 ∷ int node.port ∷ int node.kind ∷ int node.protocol ∷ int node.highest ∷ int node.lowest ∷ int n ∷ []) }
{
    let mut b = [0u8; 12];
    wire::put::<u8>(&mut b, 0, 119);
    wire::put::<u8>(&mut b, 1, 0);
    wire::put::<u16>(&mut b, 2, node.port);
    wire::put::<u8>(&mut b, 4, node.kind);
    wire::put::<u8>(&mut b, 5, node.protocol);
    wire::put::<u16>(&mut b, 6, node.highest);
    wire::put::<u16>(&mut b, 8, node.lowest);
    wire::put::<u16>(&mut b, 10, n);
    b
}

// Writes PORT2_RESP for what is registered, and tells its length.
pub fn put_port2_found(out: &mut [u8], node: Node, name: &[u8], extra: &[u8]) -> usize
    requires { (14 + length name.now + length extra.now ≤ length out.old) × (length name.now ≤ 65535) × (length extra.now ≤ 65535) }
    ensures value { result ≡ length (port2_with node.port node.kind node.protocol node.highest node.lowest name.now extra.now) }
    ensures out_after { out.new ≡ written (port2_with node.port node.kind node.protocol node.highest node.lowest name.now extra.now) out.old }
{
    let n = name.len();
    let head = port2_head(node, n as u16);
    wire::put_bytes(out, 0, &head);
    wire::put_bytes(out, 12, name);
    put_run(out, 12 + n, extra)
}

// Writes "not found", and tells its length.
#[tactic(auto, using(wire::proofs::OutputLaws::overwrite_front))]
pub fn put_port2_missing(out: &mut [u8]) -> usize
    requires { 2 ≤ length out.old }
    ensures value { result ≡ length port2_missing }
    ensures out_after { out.new ≡ written port2_missing out.old }
{
    let reply = [119u8, 1];
    wire::put_bytes(out, 0, &reply);
    2
}

// Writes a port in decimal at an offset, and tells its length: at most five digits.
#[tactic(auto, using(epmd_rules::proofs::ReplyLaws::port_short))]
fn put_port(out: &mut [u8], at: usize, port: u16) -> usize
    requires { at + 5 ≤ length out.old }
    ensures value { result ≡ length (decimal port) }
    ensures upper_bound { result ≤ 5 }
    ensures out_after { out.new ≡ overwrite out.old at (decimal port) }
{
    wire::put_decimal(out, at, port as u32)
}

// Writes a line of NAMES at an offset, and tells the offset behind it.
pub fn put_name_line(out: &mut [u8], at: usize, name: &[u8], port: u16) -> usize
    requires { (at + line_room ≤ length out.old) × (length name.now ≤ 255) }
    ensures value { result ≡ at + length (line_with name.now port) }
    ensures upper_bound { result ≤ at + line_room }
    ensures out_after { out.new ≡ overwrite out.old at (line_with name.now port) }
{
    let a = at + 5;
    let b = a + name.len();
    let c = b + 9;
    wire::put_bytes(out, at, b"name ");
    wire::put_bytes(out, a, name);
    wire::put_bytes(out, b, b" at port ");
    let d = c + put_port(out, c, port);
    wire::put_bytes(out, d, b"\n");
    d + 1
}
