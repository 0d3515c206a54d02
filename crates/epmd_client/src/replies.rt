// Replies (01, The mapper), read. A reply has no length before it: it is all the bytes that came.
ghost use Rattle.std.specs.Prelude.{◌≡◌, ◌≤◌, cond, length, eqb};
ghost use Rattle.epmd_rules.specs.Messages.{port2_resp};
ghost use Rattle.epmd_rules.specs.Requests.{tag};
ghost use Rattle.wire.specs.Layout.{extent};
ghost use Rattle.epmd_client_rules.specs.declared.reply.Alive2Reply.TheVariants.{Registered, Failed};
ghost use Rattle.epmd_client_rules.specs.Replies.{result_in, fields_in, alive2_read, port2_read};

use epmd_client_rules::reply::{Alive2Reply, Part, Port2, Port2Reply};
use epmd_client_rules::unreadable::Unreadable;
use epmd_messages::runs::runs_end;

// Every reply begins with its tag and Result.
const RESULT: usize = 1;

const BEHIND: usize = RESULT + 1;

// The creation field of 118 and of 121, and where each ends.
const CREATION: usize = BEHIND;

const LONG: usize = CREATION + 4;

const SHORT: usize = CREATION + 2;

// The fields of 119; behind the name stand Elen and the extra bytes.
const PORT: usize = BEHIND;

const KIND: usize = PORT + 2;

const PROTOCOL: usize = KIND + 1;

const HIGHEST: usize = PROTOCOL + 1;

const LOWEST: usize = HIGHEST + 2;

const NLEN: usize = LOWEST + 2;

const NAME: usize = NLEN + 2;

// "any Result above 0 an error told as it stands". The creation comes read: a function over its width T
// would be no plainer, since BigEndian says nothing of a T as a u32, and a clause would have to.
fn alive2_told(reply: &[u8], tag: u8, creation: u32) -> Alive2Reply
    requires { 2 ≤ length reply.now }
    ensures { result ≡ cond (eqb (result_in reply.now) 0) (Registered tag creation) (Failed tag (result_in reply.now)) }
{
    match wire::get::<u8>(reply, RESULT) {
        0 => Alive2Reply::Registered { tag, creation },
        result => Alive2Reply::Failed { tag, result },
    }
}

// ALIVE2_X_RESP or ALIVE2_RESP.
#[tactic(auto, using(epmd_client_rules::proofs::ReplyLaws::alive2_laws))]
pub fn read_alive2(reply: &[u8]) -> Result<Alive2Reply, Unreadable>
    ensures { result ≡ alive2_read reply.now }
{
    let n = reply.len();
    if n == 0 {
        return Err(Unreadable::WrongLength);
    }
    let tag = wire::get::<u8>(reply, 0);
    match tag {
        118 if n == LONG => {
            let creation = wire::get::<u32>(reply, CREATION);
            Ok(alive2_told(reply, tag, creation))
        }
        121 if n == SHORT => {
            let creation = wire::get::<u16>(reply, CREATION) as u32;
            Ok(alive2_told(reply, tag, creation))
        }
        118 | 121 => Err(Unreadable::WrongLength),
        _ => Err(Unreadable::WrongTag),
    }
}

// The fields of a PORT2_RESP that ends where they do.
fn fields_in(reply: &[u8]) -> Port2
    requires { length reply.now ≡ extent port2_resp reply.now }
    ensures { result ≡ fields_in reply.now }
{
    let nlen = wire::get::<u16>(reply, NLEN) as usize;
    let at = NAME + nlen;
    let elen = wire::get::<u16>(reply, at) as u32;
    let name = Part {
        at: NAME as u32,
        len: nlen as u32,
    };
    let extra = Part {
        at: (at + 2) as u32,
        len: elen,
    };
    Port2 {
        port: wire::get::<u16>(reply, PORT),
        kind: wire::get::<u8>(reply, KIND),
        protocol: wire::get::<u8>(reply, PROTOCOL),
        highest: wire::get::<u16>(reply, HIGHEST),
        lowest: wire::get::<u16>(reply, LOWEST),
        name,
        extra,
    }
}

// PORT2_RESP with Result 0.
#[tactic(auto, using(epmd_client_rules::proofs::ReplyLaws::found_laws))]
fn read_found(reply: &[u8]) -> Result<Port2Reply, Unreadable>
    requires { (1 ≤ length reply.now) × (tag reply.now ≡ 119) × (result_in reply.now ≡ 0) }
    ensures { result ≡ port2_read reply.now }
{
    if !runs_end(reply, NLEN) {
        return Err(Unreadable::WrongLength);
    }
    Ok(Port2Reply::Found(fields_in(reply)))
}

// PORT2_RESP.
#[tactic(auto, using(epmd_client_rules::proofs::ReplyLaws::port2_laws))]
pub fn read_port2(reply: &[u8]) -> Result<Port2Reply, Unreadable>
    ensures { result ≡ port2_read reply.now }
{
    let n = reply.len();
    if n == 0 {
        return Err(Unreadable::WrongLength);
    }
    if wire::get::<u8>(reply, 0) != 119 {
        return Err(Unreadable::WrongTag);
    }
    if n < BEHIND {
        return Err(Unreadable::WrongLength);
    }
    let result = wire::get::<u8>(reply, RESULT);
    if result == 0 {
        return read_found(reply);
    }
    if n != BEHIND {
        return Err(Unreadable::WrongLength);
    }
    Ok(Port2Reply::Failed { result })
}
