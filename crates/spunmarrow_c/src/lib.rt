// The static library for C: the functions of crate spunmarrow under C's calling convention, each with the
// clauses that it has there, and nothing else. The header is include/spunmarrow.h.
//
// An array of fixed length is a pointer in C, and a slice is a pointer and a length. Each function requires
// nothing.
#![tactic(auto)]

pub mod draw;
pub mod mesh;
pub mod write;
