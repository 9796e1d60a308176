// What vtiming promises, in one room: specs/Lib.antt is the first page and lists the others. No code stands here, and no other crate knows
// this one; it knows all the others, and cites their proofs.
#![tactic(auto)]
