// The mapper's messages (01, The mapper): reading requests and writing replies. Nothing here looks at
// a registry: what a frame asks for is decided by its bytes and by the room for the reply alone.
#![tactic(auto)]

pub mod replies;
pub mod requests;
pub mod runs;
