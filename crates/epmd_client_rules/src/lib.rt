// A node's side of the port mapper (02, P1): the types of what its readers tell. What a reader has to
// believe is in specs/: which frame each writer writes, what each reply says, which readings a NAMES
// reply has, and all claims (specs/Claims); proofs/ proves them. The code stands above:
// epmd_client_names and epmd_client.
#![tactic(auto)]

pub mod numbers;
pub mod reply;
pub mod unreadable;
