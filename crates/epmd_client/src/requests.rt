// Requests (01, The mapper), written as whole frames: first the answer is decided, by the fields and
// the room alone, then the frame is written if nothing is refused.
ghost use Rattle.std.specs.Prelude.{◌≡◌, ◌+◌, ◌≤◌, [], ◌∷◌, length, take};
ghost use Rattle.wire.specs.Output.{written};
ghost use Rattle.wire.specs.Layout.{number, int, encode};
ghost use Rattle.epmd_rules.specs.Messages.{alive2_req};
ghost use Rattle.epmd_rules.specs.Requests.{alive2_rules, port_please2_rules};
ghost use Rattle.epmd_client_rules.specs.Requests.{alive2_frame, port_please2_frame, names_frame, alive2_writing, port_please2_writing, names_writing, Writes};
ghost use Rattle.epmd_client_rules.specs.Decision.{decided};

use epmd_messages::requests::{EXTRA_MOST, versions_ok};
use epmd_messages::runs::put_run;
use epmd_rules::refusal::Refusal;
use epmd_rules::registration::Node;

// Where the fields of a frame are: behind its length stands its tag, and behind the tag the name of
// PORT_PLEASE2_REQ or the fields of ALIVE2_REQ. Behind these stand its two runs, name and extra; a
// request whose runs are empty has LEAST bytes.
const TAG: usize = 2;

const BEHIND: usize = TAG + 1;

const PORT: usize = BEHIND;

const KIND: usize = PORT + 2;

const PROTOCOL: usize = KIND + 1;

const HIGHEST: usize = PROTOCOL + 1;

const LOWEST: usize = HIGHEST + 2;

const RUNS: usize = LOWEST + 2;

const LEAST: usize = RUNS + 4;

// The last rule of each: the frame must fit.
fn decide_room(size: usize, given: usize) -> Result<usize, Refusal>
    ensures { result ≡ decided [] size given }
{
    if given < size {
        return Err(Refusal::OutputTooShort);
    }
    Ok(size)
}

fn decide_alive2(node: Node, name: &[u8], extra: &[u8], given: usize) -> Result<usize, Refusal>
    ensures { result ≡ decided (alive2_rules node.highest node.lowest name.now extra.now) (15 + length name.now + length extra.now) given }
{
    if EXTRA_MOST < extra.len() {
        return Err(Refusal::BadLength);
    }
    if !names::is_node_name(name) {
        return Err(Refusal::BadName);
    }
    if !versions_ok(node.highest, node.lowest) {
        return Err(Refusal::BadVersions);
    }
    decide_room(LEAST + name.len() + extra.len(), given)
}

fn decide_port_please2(name: &[u8], given: usize) -> Result<usize, Refusal>
    ensures { result ≡ decided (port_please2_rules name.now) (3 + length name.now) given }
{
    if !names::is_node_name(name) {
        return Err(Refusal::BadName);
    }
    decide_room(BEHIND + name.len(), given)
}

// A frame's length and tag.
#[tactic(auto, unfolding(wire::specs::Output::overwrite))]
fn frame_head(length: u16, tag: u8) -> [u8; BEHIND]
    ensures { result ≡ encode (number 2 ∷ number 1 ∷ []) (int length ∷ int tag ∷ []) }
{
    let mut b = [0u8; BEHIND];
    wire::put::<u16>(&mut b, 0, length);
    wire::put::<u8>(&mut b, TAG, tag);
    b
}

// All of ALIVE2_REQ before its runs, for a body of so many bytes.
#[tactic(auto, unfolding(wire::specs::Output::overwrite))]
fn alive2_head(length: u16, node: Node) -> [u8; RUNS]
    ensures { result ≡ encode (number 2 ∷ take 6 alive2_req) (int length ∷ int 120 ∷ int node.port ∷ int node.kind ∷ int node.protocol ∷ int node.highest ∷ int node.lowest ∷ []) }
{
    let mut b = [0u8; RUNS];
    wire::put_bytes(&mut b, 0, &frame_head(length, 120));
    wire::put::<u16>(&mut b, PORT, node.port);
    wire::put::<u8>(&mut b, KIND, node.kind);
    wire::put::<u8>(&mut b, PROTOCOL, node.protocol);
    wire::put::<u16>(&mut b, HIGHEST, node.highest);
    wire::put::<u16>(&mut b, LOWEST, node.lowest);
    b
}

fn put_alive2(node: Node, name: &[u8], extra: &[u8], out: &mut [u8])
    requires { (15 + length name.now + length extra.now ≤ length out.old) × (length name.now ≤ 255) × (length extra.now ≤ 128) }
    ensures { out.new ≡ written (alive2_frame node.port node.kind node.protocol node.highest node.lowest name.now extra.now) out.old }
{
    let length = LEAST - TAG + name.len() + extra.len();
    let head = alive2_head(length as u16, node);
    wire::put_bytes(out, 0, &head);
    let at = put_run(out, RUNS, name);
    put_run(out, at, extra);
}

fn put_port_please2(name: &[u8], out: &mut [u8])
    requires { (3 + length name.now ≤ length out.old) × (length name.now ≤ 255) }
    ensures { out.new ≡ written (port_please2_frame name.now) out.old }
{
    let head = frame_head((1 + name.len()) as u16, 122);
    wire::put_bytes(out, 0, &head);
    wire::put_bytes(out, BEHIND, name);
}

fn put_names(out: &mut [u8])
    requires { 3 ≤ length out.old }
    ensures { out.new ≡ written names_frame out.old }
{
    let head = frame_head(1, 110);
    wire::put_bytes(out, 0, &head);
}

// Writes ALIVE2_REQ, and tells the count written. The fields come one by one and not as a Node: this is
// the public call that docs/STATEMENTS names, with the parameters that it had.
pub fn alive2_request(
    port: u16,
    kind: u8,
    protocol: u8,
    highest: u16,
    lowest: u16,
    name: &[u8],
    extra: &[u8],
    out: &mut [u8],
) -> Result<usize, Refusal>
    ensures { Writes (alive2_writing port kind protocol highest lowest name.now extra.now (length out.old)) result out.old out.new }
{
    let node = Node {
        port,
        kind,
        protocol,
        highest,
        lowest,
    };
    let count = decide_alive2(node, name, extra, out.len())?;
    put_alive2(node, name, extra, out);
    Ok(count)
}

// Writes PORT_PLEASE2_REQ, and tells the count written.
pub fn port_please2_request(name: &[u8], out: &mut [u8]) -> Result<usize, Refusal>
    ensures { Writes (port_please2_writing name.now (length out.old)) result out.old out.new }
{
    let count = decide_port_please2(name, out.len())?;
    put_port_please2(name, out);
    Ok(count)
}

// Writes NAMES_REQ, and tells the count written.
pub fn names_request(out: &mut [u8]) -> Result<usize, Refusal>
    ensures { Writes (names_writing (length out.old)) result out.old out.new }
{
    let count = decide_room(BEHIND, out.len())?;
    put_names(out);
    Ok(count)
}
