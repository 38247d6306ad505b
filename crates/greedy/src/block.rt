// What an accepted call meshes.
ghost use Rattle.std.specs.Prelude.{◌≡◌};
ghost use Rattle.voxels.specs.Shape as shape;

use geometry::vector::UVec3;
use voxels::extent::Extent;

// A block and the interior of the box.
#[derive(Clone, Copy)]
pub(crate) struct Block<'a> {
    pub voxels: &'a [u16],
    pub voxels_shape: UVec3,
    // How many voxels the shape has.
    pub size: usize,
    pub interior: Extent,
    // That the checks passed isn't said here: Accepted is of a box, which its interior doesn't determine.
    ghost sized: { size ≡ shape.size voxels_shape },
}
