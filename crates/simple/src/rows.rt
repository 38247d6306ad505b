// What the loops pass through, from an index on: rows of voxels, and slices of rows.
//
// The loops over rows and over slices are written out in both passes: each is a `for` of a few lines, and
// one walk for all would be longer, a trait with what each level asks for and promises as its laws.
ghost use Rattle.std.specs.Prelude.{◌≡◌};
ghost use Rattle.voxels.specs.Entered.{Interior};
ghost use Rattle.simple.specs.Kernel.{slices_of};

use geometry::axis::Axis;
use geometry::vector::UVec3;
use voxels::extent::Extent;
use voxels::index::Stride;

// Rows of voxels, a stride apart: how long each is, and how many there are.
#[derive(Clone, Copy)]
pub(crate) struct Rows {
    pub wide: u32,
    pub stride: Stride,
    pub high: u32,
}

// Slices of such rows, a stride apart, and how many there are.
#[derive(Clone, Copy)]
pub(crate) struct Slices {
    pub rows: Rows,
    pub stride: Stride,
    pub deep: u32,
}

impl Slices {
    // The slices of an accepted box's interior.
    pub(crate) fn new(voxels_shape: UVec3, interior: Extent) -> Slices
        requires { Interior voxels_shape interior }
        ensures { result ≡ slices_of voxels_shape interior }
    {
        let minimum = interior.minimum;
        let bound = interior.bound;
        let wide = bound.x - minimum.x;
        let high = bound.y - minimum.y;
        let deep = bound.z - minimum.z;
        let y_stride = Stride::new(voxels_shape, Axis::Y);
        let z_stride = Stride::new(voxels_shape, Axis::Z);
        let rows = Rows {
            wide,
            stride: y_stride,
            high,
        };
        Slices {
            rows,
            stride: z_stride,
            deep,
        }
    }
}
