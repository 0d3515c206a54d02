// What is kept of a set of readings.
ghost use Rattle.std.specs.Prelude.{◌≡◌};
ghost use Rattle.epmd_client_names.specs.Tallies.{fewest_of, beaten_of, several_of, join_of, longer_of, verdict_of};

use epmd_client_rules::unreadable::Unreadable;
use std::cmp::Ordering;

// The most lines that a reading has.
const MOST_LINES: u8 = 64;

// No reading; some, and all with more than 64 lines; exactly one; one with the fewest lines, and
// others with more; two with the fewest. Beside each stands how many the fewest lines are.
#[derive(Clone, Copy)]
pub enum Tally {
    Nothing,
    Over,
    One(u8),
    Least(u8),
    Several(u8),
}

impl Tally {
    // The fewest lines, 65 for any more than 64, as `fewest_of` says: `join` compares it with the others.
    pub(crate) fn fewest(self) -> Option<u8>
        ensures { result ≡ fewest_of self }
    {
        match self {
            Tally::Nothing => None,
            Tally::Over => Some(MOST_LINES + 1),
            Tally::One(lines) | Tally::Least(lines) | Tally::Several(lines) => Some(lines),
        }
    }

    // With readings beside them that all have more lines.
    fn beaten(self) -> Tally
        ensures { result ≡ beaten_of self }
    {
        match self {
            Tally::One(lines) => Tally::Least(lines),
            other => other,
        }
    }

    // Of two sets that have no reading in common.
    #[tactic(auto, unfolding(crate::specs::Tallies::join_of))]
    pub(crate) fn join(self, other: Tally) -> Tally
        ensures { result ≡ join_of self other }
    {
        let Some(ours) = self.fewest() else {
            return other;
        };
        let Some(theirs) = other.fewest() else {
            return self;
        };
        match ours.cmp(&theirs) {
            Ordering::Less => self.beaten(),
            Ordering::Greater => other.beaten(),
            Ordering::Equal => several(ours),
        }
    }

    // With one more line in front of each.
    pub(crate) fn longer(self) -> Tally
        ensures { result ≡ longer_of self }
    {
        match self {
            Tally::Nothing => Tally::Nothing,
            Tally::One(lines) if lines < MOST_LINES => Tally::One(lines + 1),
            Tally::Least(lines) if lines < MOST_LINES => Tally::Least(lines + 1),
            Tally::Several(lines) if lines < MOST_LINES => Tally::Several(lines + 1),
            _ => Tally::Over,
        }
    }

    // What it says, of all readings, of those with at most 64 lines: how many lines the one has.
    pub(crate) fn verdict(self) -> Result<u8, Unreadable>
        ensures { result ≡ verdict_of self }
    {
        match self {
            Tally::Nothing | Tally::Over => Err(Unreadable::WrongLength),
            Tally::Least(lines) if lines < MOST_LINES => Err(Unreadable::Ambiguous),
            Tally::One(lines) | Tally::Least(lines) => Ok(lines),
            Tally::Several(_) => Err(Unreadable::Ambiguous),
        }
    }
}

// Two with so many lines each, and none with fewer.
fn several(k: u8) -> Tally
    ensures { result ≡ several_of k }
{
    if MOST_LINES < k {
        Tally::Over
    } else {
        Tally::Several(k)
    }
}
