// Requests (01, The mapper): which one a frame is, or why it is refused.
ghost use Rattle.std.specs.Prelude.{◌≡◌, ◌≤◌, length};
ghost use Rattle.wire.specs.Number.{be_at};
ghost use Rattle.wire.specs.Layout.{int_at, run_at};
ghost use Rattle.epmd_rules.specs.Messages.{alive2_req};
ghost use Rattle.epmd_rules.specs.Registration.{extra_of};
ghost use Rattle.epmd_rules.specs.Requests.{is_withheld, versions_ok, examine_body, examine_of};
ghost use Rattle.epmd_rules.specs.Serve.{Alive2Body, registration_of};

use crate::replies::ROOM;
use crate::runs::runs_end;
use epmd_rules::refusal::Refusal;
use epmd_rules::registration::{Extra, Registration};
use epmd_rules::request::Request;
use names::Name;

// Where the fields of an ALIVE2 body are: behind the name stand Elen and the extra bytes.
const PORT: usize = 1;

const KIND: usize = 3;

const PROTOCOL: usize = 4;

const HIGHEST: usize = 5;

const LOWEST: usize = 7;

const NLEN: usize = 9;

const NAME: usize = 11;

// "Elen at most 128 (house)".
pub const EXTRA_MOST: usize = 128;

// Tags 100, 107 and 115: DUMP, KILL and STOP.
#[tactic(auto, unfolding(epmd_rules::specs::Requests::is_withheld))]
fn is_withheld(tag: u8) -> bool
    ensures { result ≡ is_withheld tag }
{
    tag == 100 || tag == 107 || tag == 115
}

// "lowest ≤ highest, lowest ≤ 6, highest ≥ 5".
#[tactic(auto, unfolding(epmd_rules::specs::Requests::versions_ok))]
pub fn versions_ok(highest: u16, lowest: u16) -> bool
    ensures { result ≡ versions_ok highest lowest }
{
    lowest <= highest && lowest <= 6 && 5 <= highest
}

#[tactic(auto, using(epmd_rules::proofs::RequestLaws::alive2_laws))]
fn examine_alive2(body: &[u8]) -> Result<Request, Refusal>
    requires { be_at 1 0 body.now ≡ 120 }
    ensures { result ≡ examine_body body.now }
{
    if !runs_end(body, NLEN) {
        return Err(Refusal::BadLength);
    }
    let nlen = wire::get::<u16>(body, NLEN) as usize;
    let elen = wire::get::<u16>(body, NAME + nlen) as usize;
    if EXTRA_MOST < elen {
        return Err(Refusal::BadLength);
    }
    if !names::is_node_name(wire::get_part(body, NAME, nlen)) {
        return Err(Refusal::BadName);
    }
    if !versions_ok(
        wire::get::<u16>(body, HIGHEST),
        wire::get::<u16>(body, LOWEST),
    ) {
        return Err(Refusal::BadVersions);
    }
    Ok(Request::Alive2)
}

fn examine_port_please2(body: &[u8]) -> Result<Request, Refusal>
    requires { (1 ≤ length body.now) × (be_at 1 0 body.now ≡ 122) }
    ensures { result ≡ examine_body body.now }
{
    if !names::is_node_name(&body[1..]) {
        return Err(Refusal::BadName);
    }
    Ok(Request::PortPlease2)
}

#[tactic(auto, using(epmd_rules::proofs::RequestLaws::names_laws))]
fn examine_names(body: &[u8]) -> Result<Request, Refusal>
    requires { be_at 1 0 body.now ≡ 110 }
    ensures { result ≡ examine_body body.now }
{
    if body.len() != 1 {
        return Err(Refusal::BadLength);
    }
    Ok(Request::Names)
}

// What the body of a frame asks for.
#[tactic(auto, using(epmd_rules::proofs::RequestLaws::tag_laws))]
fn examine_body(body: &[u8]) -> Result<Request, Refusal>
    requires { 1 ≤ length body.now }
    ensures { result ≡ examine_body body.now }
{
    match wire::get::<u8>(body, 0) {
        120 => examine_alive2(body),
        122 => examine_port_please2(body),
        110 => examine_names(body),
        tag if is_withheld(tag) => Err(Refusal::NotServed),
        _ => Err(Refusal::UnknownTag),
    }
}

// What a frame asks for, if its reply has so many bytes of room.
#[tactic(auto, using(epmd_rules::proofs::RequestLaws::frame_laws))]
pub fn examine(frame: &[u8], given: usize) -> Result<Request, Refusal>
    ensures { result ≡ examine_of frame.now given }
{
    if given < ROOM {
        return Err(Refusal::OutputTooShort);
    }
    if !wire::is_frame(frame) {
        return Err(Refusal::NotAFrame);
    }
    examine_body(wire::body_of(frame))
}

fn extra_of(s: &[u8]) -> Extra
    requires { length s.now ≤ 128 }
    ensures { result ≡ extra_of s.now }
{
    let mut b = [0u8; 128];
    wire::put_bytes(&mut b, 0, s);
    Extra {
        bytes: b,
        len: s.len() as u8,
    }
}

// An ALIVE2_REQ, as its body, whose name and extra bytes can be held: `examine` takes no other.
#[derive(Clone, Copy)]
pub struct Alive2Req<'a> {
    pub body: &'a [u8],
    pub ghost held: { Alive2Body body.now },
}

impl<'a> Alive2Req<'a> {
    // A name behind its length is read alike in a record and a slot: over their offsets as parameters it would be no plainer.
    pub fn name(&self) -> &'a [u8]
        ensures { result.now ≡ run_at alive2_req 6 self.now.body.now }
    {
        let nlen = wire::get::<u16>(self.body, NLEN) as usize;
        wire::get_part(self.body, NAME, nlen)
    }

    pub fn highest(&self) -> u16
        ensures { result ≡ int_at alive2_req 4 self.now.body.now }
    {
        wire::get::<u16>(self.body, HIGHEST)
    }

    // The registration that it asks for.
    #[tactic(auto, unfolding(epmd_rules::specs::Serve::registration_of))]
    pub fn registration(&self, connection: u32, creation: u32) -> Registration
        ensures { result ≡ registration_of connection creation self.now.body.now }
    {
        let body = self.body;
        let nlen = wire::get::<u16>(body, NLEN) as usize;
        let at = NAME + nlen;
        let elen = wire::get::<u16>(body, at) as usize;
        Registration {
            name: Name::of(wire::get_part(body, NAME, nlen)),
            extra: extra_of(wire::get_part(body, at + 2, elen)),
            kind: wire::get::<u8>(body, KIND),
            protocol: wire::get::<u8>(body, PROTOCOL),
            port: wire::get::<u16>(body, PORT),
            highest: wire::get::<u16>(body, HIGHEST),
            lowest: wire::get::<u16>(body, LOWEST),
            connection,
            creation,
        }
    }
}
