// Frames worked by hand and frames that were seen, as theorems about the definitions: 01's C1 to C9
// (specs/Frames), P3's flags (specs/Flags), and two handshakes of real nodes (specs/Handshake).
// There is no code here; `worked_cases` runs 01's and 02's cases, C10 among them, through the code.

#![tactic(auto)]
