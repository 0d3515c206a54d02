// The port mapper (01, The mapper): EPMD requests, registrations and replies over bytes that the
// host lends. The host owns the sockets; it numbers its connections and passes in whole frames.
//
// Every call says answer, registry and all output bytes by one definition of epmd_rules. No call of
// `calls` has a `requires`; a refusal writes nothing and changes nothing.
#![tactic(auto)]

pub mod calls;
mod replies;
mod result;
mod serve;

pub use calls::{close, entry, make, next, port, request};
pub use epmd_messages::replies::ROOM;
pub use epmd_state::layout::SIZE;
