// The port mapper's rules (01, The mapper): the types of its answers and registrations. What a reader
// has to believe is in specs/: every call's definition, and all claims (specs/Claims); proofs/ proves
// them. The code stands above: epmd_messages, epmd_state and epmd.
#![tactic(auto)]

pub mod answer;
pub mod refusal;
pub mod registration;
pub mod request;
