// The calls of the C interface: thin functions over the crates below, and nothing else. Crate
// spunmarrow_c exports each to C. The header is include/spunmarrow.h.
//
// An array of fixed length is a pointer in C, and a slice is a pointer and a length. Any numbers may
// be handed in: a permutation, corner or axis number outside its range is refused by 17, before
// anything else is looked at. Every function promises its whole outcome by one equation with a
// definition of specs/, and requires nothing.
#![tactic(auto)]

pub mod draw;
pub mod mesh;
mod numbers;
pub mod write;
