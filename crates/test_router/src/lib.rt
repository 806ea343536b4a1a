// A router and a judge of their own, for the test program to set against the proved ones: written from documents 001 and 01, they share no
// code, type or definition with those. Blocks are boxes that are joined, not nodes that are marked, and refusal 9 is found by walking the
// hops; rounds are counted by hand. Rows and columns are bytes: south of row 0 lies row 255, which is off every mesh. Refusals, mistakes and
// networks are the numbers of the documents, since enums for them would be those of the tested code again.
#![tactic(auto)]

pub mod answers;
pub mod areas;
pub mod rounds;
pub mod trips;
pub mod verdicts;
