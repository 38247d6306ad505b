// What the scan of a face computes once, before it reads a voxel: the first lines of the Rust's
// `greedy_quads_for_face`, with the order in which a slice is scanned.
ghost use Rattle.std.specs.Prelude.{◌≡◌};
ghost use Rattle.voxels.specs.Entered.{Interior};
ghost use Rattle.greedy.specs.Spans as rule;

use geometry::axis::{Axes, Axis};
use geometry::face::OrientedBlockFace;
use geometry::vector::UVec3;
use voxels::extent::Extent;
use voxels::index::Stride;

// A loop along an axis: its first coordinate, how many there are, and the stride from one to the next.
#[derive(Clone, Copy)]
pub(crate) struct Span {
    pub start: u32,
    pub count: u32,
    pub stride: Stride,
}

// The Rust's `FaceStrides`, but for the stride along n, which the scan has.
#[derive(Clone, Copy)]
pub(crate) struct FaceStrides {
    pub u_stride: Stride,
    pub v_stride: Stride,
    // The offset to the voxel that shares the face.
    pub visibility_offset: Stride,
}

// What the scan of a face goes by: the face's axes and strides, where the interior ends, and the loops
// over slices, rows and the voxels of a row.
#[derive(Clone, Copy)]
pub(crate) struct FaceScan {
    pub axes: Axes,
    pub strides: FaceStrides,
    pub bound: UVec3,
    // Along n.
    pub slices: Span,
    // Along the slower of the other two axes in scan order.
    pub rows: Span,
    // Along the faster one.
    pub row: Span,
}

// Of a slice's two axes the one that scan order runs through faster.
fn faster(n: Axis) -> Axis
    ensures { result ≡ rule.faster n }
{
    match n {
        Axis::X => Axis::Y,
        Axis::Y => Axis::X,
        Axis::Z => Axis::X,
    }
}

// The other one.
fn slower(n: Axis) -> Axis
    ensures { result ≡ rule.slower n }
{
    match n {
        Axis::X => Axis::Z,
        Axis::Y => Axis::Z,
        Axis::Z => Axis::Y,
    }
}

// The point of a slice along n, from the coordinates of the slice, the row, and the place in the row.
pub(crate) fn spot(n: Axis, slice: u32, row: u32, place: u32) -> UVec3
    ensures { result ≡ rule.spot n slice row place }
{
    match n {
        Axis::X => UVec3 {
            x: slice,
            y: place,
            z: row,
        },
        Axis::Y => UVec3 {
            x: place,
            y: slice,
            z: row,
        },
        Axis::Z => UVec3 {
            x: place,
            y: row,
            z: slice,
        },
    }
}

impl Span {
    // The loop through the interior of an accepted box along an axis.
    fn new(voxels_shape: UVec3, interior: Extent, axis: Axis) -> Span
        requires { Interior voxels_shape interior }
        ensures { result ≡ rule.span_of voxels_shape interior axis }
    {
        let start = axis.coordinate(interior.minimum);
        let end = axis.coordinate(interior.bound);
        Span {
            start,
            count: end - start,
            stride: Stride::new(voxels_shape, axis),
        }
    }
}

impl FaceScan {
    // How the interior of an accepted box is scanned for a face.
    pub(crate) fn new(voxels_shape: UVec3, interior: Extent, face: OrientedBlockFace) -> FaceScan
        requires { Interior voxels_shape interior }
        ensures { result ≡ rule.face_scan voxels_shape interior face }
    {
        let permutation = face.permutation;
        let axes = permutation.axes();
        let Axes { n, u, v } = axes;
        let n_stride = Stride::new(voxels_shape, n);
        let strides = FaceStrides {
            u_stride: Stride::new(voxels_shape, u),
            v_stride: Stride::new(voxels_shape, v),
            visibility_offset: Stride::visibility_offset(face, n_stride),
        };
        FaceScan {
            axes,
            strides,
            bound: interior.bound,
            slices: Span::new(voxels_shape, interior, n),
            rows: Span::new(voxels_shape, interior, slower(n)),
            row: Span::new(voxels_shape, interior, faster(n)),
        }
    }
}
