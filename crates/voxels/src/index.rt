// Where a voxel lies in the block's list, and what leads from one to another. All are 32-bit numbers,
// and all arithmetic is modulo 2 to the 32nd, so that every call takes any numbers; of an accepted
// block nothing wraps but the step toward the negative side.
ghost use Rattle.std.specs.Prelude.{◌≡◌, ◌+◌, ◌*◌, ◌%◌};
ghost use Rattle.geometry.specs.Axes.{positive};
ghost use Rattle.voxels.specs.Shape as rule;
ghost use Rattle.voxels.specs.Visible.{modulus, visibility_offset, offset_index};

use geometry::axis::Axis;
use geometry::face::OrientedBlockFace;
use geometry::vector::UVec3;

// A voxel's index.
#[derive(Clone, Copy)]
pub struct VoxelIndex(pub u32);

// A step between two voxels: what it adds to the index.
#[derive(Clone, Copy)]
pub struct Stride(pub u32);

// Numbers of 32 bits wrap here.
const MODULUS: u64 = 4294967296;

impl VoxelIndex {
    // The index of a point.
    pub fn linearize(voxels_shape: UVec3, point: UVec3) -> VoxelIndex
        ensures { result.0 ≡ rule.index voxels_shape point % modulus }
    {
        let row = add_product(point.x, voxels_shape.x, point.y);
        let xy = add_product(0, voxels_shape.x, voxels_shape.y);
        VoxelIndex(add_product(row, xy, point.z))
    }

    // The index that a step leads to.
    pub fn offset(self, stride: Stride) -> VoxelIndex
        ensures { result.0 ≡ offset_index self.0 stride.0 }
    {
        VoxelIndex(std::num::wrapping_add_u32(self.0, stride.0))
    }
}

impl Stride {
    // One step up along an axis.
    pub fn new(voxels_shape: UVec3, axis: Axis) -> Stride
        ensures { result.0 ≡ rule.stride voxels_shape axis % modulus }
    {
        let index = VoxelIndex::linearize(voxels_shape, axis.get_unit_vector());
        Stride(index.0)
    }

    // What leads from a voxel to the one that shares its face, from the stride of the face's n.
    pub fn visibility_offset(face: OrientedBlockFace, n_stride: Stride) -> Stride
        ensures { result.0 ≡ visibility_offset (positive face.n_sign) n_stride.0 }
    {
        let sign = face.n_sign;
        if sign > 0 {
            return n_stride;
        }
        Stride(std::num::wrapping_sub_u32(0, n_stride.0))
    }
}

// a + b·c, modulo 2 to the 32nd.
fn add_product(a: u32, b: u32, c: u32) -> u32
    ensures { result ≡ (a + b * c) % modulus }
{
    let sum = (a as u64) + (b as u64) * (c as u64);
    let rest = sum % MODULUS;
    rest as u32
}
