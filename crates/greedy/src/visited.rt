// The visited marks, a byte a voxel: 0, or 1 where a quad of the group has the voxel.
ghost use Rattle.std.specs.Prelude.{◌≡◌, ◌≤◌, length, replicate};
ghost use Rattle.listing.specs.Listing.{overwritten};
ghost use Rattle.greedy.specs.Marks.{RowMarked, QuadMarked, mark_row_at, mark_quad_at};

use crate::face_scan::FaceStrides;
use geometry::quad::UnorientedQuad;
use voxels::index::{Stride, VoxelIndex};

// Clears the first marks, one a voxel of the shape: the Rust's `visited.fill(false)`.
pub(crate) fn clear(visited: &mut [u8], size: usize)
    requires { size ≤ length visited.old }
    ensures { visited.new ≡ overwritten (replicate size 0) visited.old }
{
    visited[..size].fill(0);
}

// Marks the voxels of a row.
fn mark_row(visited: &mut [u8], start: VoxelIndex, u_stride: Stride, width: u32)
    requires { RowMarked (length visited.old) u_stride.0 width 0 start.0 }
    ensures { visited.new ≡ mark_row_at u_stride.0 width visited.old 0 start.0 }
{
    for k in 0..width {
        let at = (start.0 + k * u_stride.0) as usize;
        visited[at] = 1;
    }
}

// Marks the voxels of a quad, row by row, from the index of its minimum on: the Rust's `fill3`.
pub(crate) fn mark_quad(
    visited: &mut [u8],
    strides: FaceStrides,
    quad: UnorientedQuad,
    min_index: VoxelIndex,
)
    requires { QuadMarked (length visited.old) strides.u_stride.0 quad.width strides.v_stride.0 quad.height min_index.0 }
    ensures { visited.new ≡ mark_quad_at strides.u_stride.0 quad.width strides.v_stride.0 quad.height visited.old min_index.0 }
{
    for k in 0..quad.height {
        let start = min_index.0 + k * strides.v_stride.0;
        mark_row(visited, VoxelIndex(start), strides.u_stride, quad.width);
    }
}
