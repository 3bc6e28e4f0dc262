// What is found once in a section and kept, for every rule that asks for it again: the positions of some kinds, the first action of each key, the position of
// an identifier. Positions are below the section's count; a field past the section's end reads as 0, so every x has its answer.
#![tactic(auto)]

pub mod firsts;
pub mod idents;
pub mod lists;
