// 01's numbers for the endpoint's answers, as they cross to the host.
ghost use Rattle.std.specs.Prelude.{◌≡◌, false, Err};
ghost use Rattle.handshake_rules.specs.Answers as rules;
ghost use Rattle.handshake_rules.specs.Endpoint.{stage_number};
ghost use Rattle.birkenschuh.specs.Endpoint as endpoint;

use handshake_rules::endpoint::{Answer, Stage};
use handshake_rules::refusal::{Refusal, Why};

// There are 32 slots, and 32 is none of them.
const NO_SLOT: usize = 32;

// What an answer tells, and `ended`: 1 if a message that is answered so leaves the slot named free. What it
// doesn't tell is 0, and 32 in `freed`: C has no Option.
#[derive(Clone, Copy)]
pub struct Numbers {
    pub why: Why,
    pub slot: u32,
    pub stage: u32,
    pub freed: u32,
    pub ended: u32,
    pub written: usize,
}

fn flag(b: bool) -> u32
    ensures { result ≡ endpoint.flag b }
{
    u32::from(b)
}

fn slot_number(slot: usize) -> u32
    ensures { result ≡ endpoint.slot_number slot }
{
    if slot < NO_SLOT {
        return slot as u32;
    }
    NO_SLOT as u32
}

fn freed_number(freed: Option<usize>) -> u32
    ensures { result ≡ endpoint.slot_number (rules.freed_number freed) }
{
    slot_number(freed.unwrap_or(NO_SLOT))
}

// An answer that tells a slot, and how many bytes were written.
fn tell(slot: usize, written: usize) -> Numbers
    ensures { result ≡ endpoint.crossing (rules.tells rules.unrefused slot 0 rules.no_slot written) false }
{
    Numbers {
        why: Why::default(),
        slot: slot_number(slot),
        stage: 0,
        freed: freed_number(None),
        ended: flag(false),
        written,
    }
}

#[tactic(auto, unfolding(crate::specs::Endpoint::told_of))]
fn refuse(refusal: Refusal) -> Numbers
    ensures { result ≡ endpoint.told_of (Err refusal) }
{
    Numbers {
        why: refusal.why(),
        slot: 0,
        stage: 0,
        freed: freed_number(None),
        ended: flag(refusal.frees()),
        written: 0,
    }
}

fn answered(stage: Stage, freed: Option<usize>, written: usize) -> Numbers
    ensures { result ≡ endpoint.answers (stage_number stage) freed written }
{
    let stage = stage.number() as u32;
    Numbers {
        why: Why::default(),
        slot: 0,
        stage,
        freed: freed_number(freed),
        ended: flag(stage == 0),
        written,
    }
}

impl From<Result<Answer, Refusal>> for Numbers {
    ghost from_gives = { λ told n. n ≡ endpoint.told_of told };

    #[tactic(auto, unfolding(crate::specs::Endpoint::told_of))]
    fn from(told: Result<Answer, Refusal>) -> Numbers {
        match told {
            Err(refusal) => refuse(refusal),
            Ok(Answer::Begun { slot, count }) => tell(slot, count),
            Ok(Answer::Arrived { slot }) => tell(slot, 0),
            Ok(Answer::Closed) => tell(0, 0),
            Ok(
                Answer::Answered {
                    stage,
                    freed,
                    count,
                },
            ) => answered(stage, freed, count),
        }
    }
}

// For C, which has no Result: all zero where nothing is refused.
pub fn making_why(made: Result<(), Refusal>) -> Why
    ensures { result ≡ rules.making_why made }
{
    match made {
        Ok(()) => Why::default(),
        Err(refusal) => refusal.why(),
    }
}
