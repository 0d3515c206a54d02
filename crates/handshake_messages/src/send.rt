ghost use Rattle.std.specs.Prelude.{◌≡◌, ◌+◌, ◌≤◌, [], ◌∷◌, ◌++◌, length};
ghost use Rattle.wire.specs.Number.{be};
ghost use Rattle.wire.specs.Output.{overwrite, written};
ghost use Rattle.wire.specs.Layout.{encode, number, int};
ghost use Rattle.handshake_rules.specs.Calls.{Roomy};
ghost use Rattle.handshake_rules.specs.Messages.{before_name, before_challenger, name_message, challenge_message, status_message, reply_message, ack_message};

use handshake_rules::node::Node;

// Messages as they are written (01, The gate: "Messages (body bytes)"), each as a whole frame.
//
// A header is an array of bytes, written a field a line; a name, a word or a digest follows it. One
// writer for all headers would take fields of any width in a list, and say less than these lines.
//
// An output is a lent slice with room enough and no array, here and in the stages above: recv_name and
// its kin (docs/ARCHITECTURE) take a longer one too.

#[tactic(auto, unfolding(wire::specs::Output::overwrite))]
fn name_header(flags: u64, creation: u32, n: u8) -> [u8; 17]
    ensures { result ≡ be 2 (15 + n) ++ encode (before_name ++ (number 2 ∷ [])) (int 78 ∷ int flags ∷ int creation ∷ int n ∷ []) }
{
    let mut h = [0u8; 17];
    wire::put::<u16>(&mut h, 0, 15 + n as u16);
    wire::put(&mut h, 2, b'N');
    wire::put(&mut h, 3, flags);
    wire::put(&mut h, 11, creation);
    wire::put::<u16>(&mut h, 15, n as u16);
    h
}

#[tactic(auto, unfolding(wire::specs::Output::overwrite))]
fn challenge_header(flags: u64, challenge: u32, creation: u32, n: u8) -> [u8; 21]
    ensures { result ≡ be 2 (19 + n) ++ encode (before_challenger ++ (number 2 ∷ [])) (int 78 ∷ int flags ∷ int challenge ∷ int creation ∷ int n ∷ []) }
{
    let mut h = [0u8; 21];
    wire::put::<u16>(&mut h, 0, 19 + n as u16);
    wire::put(&mut h, 2, b'N');
    wire::put(&mut h, 3, flags);
    wire::put(&mut h, 11, challenge);
    wire::put(&mut h, 15, creation);
    wire::put::<u16>(&mut h, 19, n as u16);
    h
}

// Writes the name message from the first byte on, and tells its length.
pub fn send_name(out: &mut [u8], node: Node) -> usize
    requires { Roomy out.old }
    ensures value { result ≡ length (name_message node.entry.flags node.entry.creation node.entry.name.now) }
    ensures out_after { out.new ≡ written (name_message node.entry.flags node.entry.creation node.entry.name.now) out.old }
{
    let n = node.name.len();
    let h = name_header(node.flags, node.creation, n as u8);
    wire::put_bytes(out, 0, &h);
    wire::put_bytes(out, 17, node.name);
    17 + n
}

// Writes the challenge message at an offset, and tells its length.
pub fn send_challenge(out: &mut [u8], at: usize, node: Node, challenge: u32) -> usize
    requires { (at ≤ 18) × Roomy out.old }
    ensures value { result ≡ length (challenge_message node.entry.flags challenge node.entry.creation node.entry.name.now) }
    ensures out_after { out.new ≡ overwrite out.old at (challenge_message node.entry.flags challenge node.entry.creation node.entry.name.now) }
{
    let n = node.name.len();
    let h = challenge_header(node.flags, challenge, node.creation, n as u8);
    wire::put_bytes(out, at, &h);
    wire::put_bytes(out, at + 21, node.name);
    21 + n
}

#[tactic(auto, unfolding(wire::specs::Output::overwrite))]
fn status_header(n: u8) -> [u8; 3]
    ensures { result ≡ be 2 (1 + n) ++ (115 ∷ []) }
{
    let mut h = [0u8; 3];
    wire::put::<u16>(&mut h, 0, 1 + n as u16);
    wire::put(&mut h, 2, b's');
    h
}

// Writes a status from the first byte on, and tells its length.
pub fn send_status(out: &mut [u8], word: &[u8]) -> usize
    requires { (length word.now ≤ 15) × Roomy out.old }
    ensures value { result ≡ length (status_message word.now) }
    ensures out_after { out.new ≡ written (status_message word.now) out.old }
{
    let n = word.len();
    let h = status_header(n as u8);
    wire::put_bytes(out, 0, &h);
    wire::put_bytes(out, 3, word);
    3 + n
}

#[tactic(auto, unfolding(wire::specs::Output::overwrite))]
fn reply_header(challenge: u32) -> [u8; 7]
    ensures { result ≡ be 2 21 ++ 114 ∷ be 4 challenge }
{
    let mut h = [0u8; 7];
    wire::put::<u16>(&mut h, 0, 21);
    wire::put(&mut h, 2, b'r');
    wire::put(&mut h, 3, challenge);
    h
}

// Writes the reply with our challenge and the digest of the peer's, and tells its length.
pub fn send_challenge_reply(out: &mut [u8], challenge: u32, digest: &[u8; 16]) -> usize
    requires { Roomy out.old }
    ensures value { result ≡ length (reply_message challenge digest.now) }
    ensures out_after { out.new ≡ written (reply_message challenge digest.now) out.old }
{
    let h = reply_header(challenge);
    wire::put_bytes(out, 0, &h);
    wire::put_bytes(out, 7, digest);
    23
}

// Writes the acknowledgement with the digest of the peer's challenge, and tells its length.
pub fn send_challenge_ack(out: &mut [u8], digest: &[u8; 16]) -> usize
    requires { Roomy out.old }
    ensures value { result ≡ length (ack_message digest.now) }
    ensures out_after { out.new ≡ written (ack_message digest.now) out.old }
{
    wire::put_bytes(out, 0, &[0, 17, b'a']);
    wire::put_bytes(out, 3, digest);
    19
}
