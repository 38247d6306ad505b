// Voxels, their places in a block, and what a mesher checks before it reads one: the class part of
// lib.rs, and bounds.rs.
#![tactic(auto)]

pub mod bounds;
pub mod extent;
pub mod index;
pub mod voxel;
