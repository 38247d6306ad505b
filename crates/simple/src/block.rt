// What the loops look at, and where they are.
use geometry::vector::UVec3;
use voxels::index::{Stride, VoxelIndex};

// A block's voxels, and the six strides that lead from a voxel to those that share its faces.
#[derive(Clone, Copy)]
pub(crate) struct Block<'a> {
    pub voxels: &'a [u16],
    pub strides: [Stride; 6],
}

// A voxel's index and its point.
#[derive(Clone, Copy)]
pub(crate) struct Place {
    pub index: VoxelIndex,
    pub point: UVec3,
}
