// What the library's answers mean: the statements are specs/Demands.antt, their proofs proofs/. There is no code here.
#![tactic(auto)]
