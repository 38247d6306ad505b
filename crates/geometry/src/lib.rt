// Axes, faces and quads of a block mesh, and the corner arithmetic that drawing code builds on.
// After block-mesh 0.2.0, geometry/axis.rs, quad.rs and face.rs. Every public function promises its
// whole answer for any input, by one equation with a definition of specs/, and requires nothing.
#![tactic(auto)]

pub mod axis;
pub mod face;
mod placed;
pub mod quad;
pub mod refusal;
pub mod vector;

// The largest axis of a shape. Every limit on coordinates follows from it: a voxel's coordinate is
// at most one less, and a corner's at most this.
pub const LARGEST_AXIS: u32 = 256;
