// ALIVE2's Result: the place that a registration gets, or which test it fails.
ghost use Rattle.std.specs.Prelude.{◌≡◌, IfOk};
ghost use Rattle.epmd_rules.specs.Registry.{lowest_free};
ghost use Rattle.epmd_rules.specs.Serve.{result_of};
ghost use Rattle.epmd_state.specs.Bytes.{registry_of};
ghost use Rattle.epmd.specs.Result.{denied_number, result_number};

use epmd_state::find::{find_connection, find_free, find_name};
use epmd_state::layout::SIZE;

// Why there is no registration, each with its Result.
#[derive(Clone, Copy, Debug, PartialEq, Eq)]
pub(crate) enum Denied {
    NameInUse = 1,
    ConnectionRegistered = 2,
    NoPlace = 3,
}

impl Denied {
    pub(crate) fn number(self) -> u8
        ensures { result ≡ denied_number self }
    {
        self as u8
    }
}

// The place that a registration gets, the lowest free one, or why it gets none.
#[tactic(auto, unfolding(epmd_rules::specs::Serve::result_of))]
pub(crate) fn place_for(state: &[u8; SIZE], connection: u32, name: &[u8]) -> Result<usize, Denied>
    ensures number { result_number result ≡ result_of (registry_of state.now) connection name.now }
    ensures place { IfOk result (λ at. at ≡ lowest_free (registry_of state.now)) }
{
    if find_name(state, name).is_some() {
        return Err(Denied::NameInUse);
    }
    if find_connection(state, connection).is_some() {
        return Err(Denied::ConnectionRegistered);
    }
    find_free(state).ok_or(Denied::NoPlace)
}
