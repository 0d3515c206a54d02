// A node's side of the port mapper (02, P1): the three requests written from their fields, and the
// replies 118, 121, 119 and NAMES read. The node owns the socket: a request is one frame, and a reply
// is all the bytes that came.
//
// Every call says its answer, and a writer all output bytes too, by one definition of
// epmd_client_rules. No public call has a `requires`; a refusal writes nothing.
#![tactic(auto)]

mod replies;
mod requests;

pub use epmd_client_names::read_names;
pub use replies::{read_alive2, read_port2};
pub use requests::{alive2_request, names_request, port_please2_request};
