// The written rules of meshing. There is no code here: specs/ says what the meshers list, and proofs/
// what is shown of it, for any code that meets the rules. specs/Lib.antt gives the order to read in.
#![tactic(auto)]
