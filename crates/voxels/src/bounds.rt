// What a mesher checks before it reads a voxel, after bounds.rs.
//
// Any shape, box, faces and lengths may be handed in. Each refusal is a function of its own, so that
// other calls can put them in other orders with geometry's `first_refusal`.
ghost use Rattle.std.specs.Prelude.{◌≡◌, ◌+◌, ◌-◌, ◌*◌, ◌<◌, ◌≤◌, Bool, [], ◌∷◌, ◌++◌, length, nat_lt};
ghost use Rattle.geometry.specs.Refusal.{checked, answer, follow, at_place0, at_place};
ghost use Rattle.geometry.specs.Answers.{number, meaning};
ghost use Rattle.voxels.specs.Shape.{size};
ghost use Rattle.voxels.specs.Checks.{bad_axis, bad_shape, few_voxels, min_above_max, max_past_shape, min_is_max, bad_faces, few_visited, bad_voxels, bounds_checks, box_checks, unit_checks, greedy_checks};
ghost use Rattle.voxels.specs.Answers.{entry};
ghost use Rattle.voxels.specs.Entered.{most_voxels, Held};
ghost use Rattle.voxels.specs.Rows.{RowLent, RowsLent, SlicesLent, AtMost, bad_at, row, rows, slices};

use crate::extent::Extent;
use crate::index::{Stride, VoxelIndex};
use crate::voxel;
use geometry::LARGEST_AXIS;
use geometry::axis::Axis;
use geometry::face::OrientedBlockFace;
use geometry::refusal::{Reason, Refusal, first_refusal};
use geometry::vector::UVec3;

// What an accepted call needs of its block.
#[derive(Clone, Copy)]
pub struct Entry {
    // How many voxels the shape has.
    pub size: u32,
    // The interior of the box.
    pub interior: Extent,
}

// A refusal on the first axis where it applies.
fn check_axes(reason: Reason, x: bool, y: bool, z: bool) -> Result<(), Refusal>
    ensures { meaning result ≡ checked (at_place0 (number reason) x ∷ at_place 1 (at_place0 (number reason) y) ∷ at_place 2 (at_place0 (number reason) z) ∷ []) }
{
    if x {
        return Err(reason.at(0));
    }
    if y {
        return Err(reason.at(1));
    }
    if z {
        return Err(reason.at(2));
    }
    Ok(())
}

// Whether an axis of a shape is 0 or above the largest.
fn bad_axis(n: u32) -> bool
    ensures { result ≡ bad_axis n }
{
    if n == 0 {
        return true;
    }
    LARGEST_AXIS < n
}

// 1: an axis of the shape is 0 or above the largest.
pub fn check_shape(voxels_shape: UVec3) -> Result<(), Refusal>
    ensures { meaning result ≡ checked (bad_shape voxels_shape) }
{
    check_axes(
        Reason::Shape,
        bad_axis(voxels_shape.x),
        bad_axis(voxels_shape.y),
        bad_axis(voxels_shape.z),
    )
}

// Whether so many are fewer than x·y·z. That product may not fit, and is not computed.
fn fewer(lent: usize, x: u32, y: u32, z: u32) -> bool
    ensures { result ≡ nat_lt lent (x * y * z) }
{
    if z == 0 {
        return false;
    }
    let xy = (x as usize) * (y as usize);
    lent / (z as usize) < xy
}

// 2: fewer voxels lent than the shape has.
pub fn check_voxel_count(lent: usize, voxels_shape: UVec3) -> Result<(), Refusal>
    ensures { meaning result ≡ checked (few_voxels lent voxels_shape) }
{
    if fewer(lent, voxels_shape.x, voxels_shape.y, voxels_shape.z) {
        return Err(Reason::FewVoxels.at(0));
    }
    Ok(())
}

// 3: min above max on an axis.
pub fn check_min(min: UVec3, max: UVec3) -> Result<(), Refusal>
    ensures { meaning result ≡ checked (min_above_max min max) }
{
    check_axes(
        Reason::MinAboveMax,
        max.x < min.x,
        max.y < min.y,
        max.z < min.z,
    )
}

// 4: max at or past the shape on an axis.
pub fn check_max(voxels_shape: UVec3, max: UVec3) -> Result<(), Refusal>
    ensures { meaning result ≡ checked (max_past_shape voxels_shape max) }
{
    check_axes(
        Reason::MaxPastShape,
        voxels_shape.x <= max.x,
        voxels_shape.y <= max.y,
        voxels_shape.z <= max.z,
    )
}

// 5: min equal to max on an axis.
pub fn check_span(min: UVec3, max: UVec3) -> Result<(), Refusal>
    ensures { meaning result ≡ checked (min_is_max min max) }
{
    check_axes(
        Reason::MinIsMax,
        min.x == max.x,
        min.y == max.y,
        min.z == max.z,
    )
}

// 6: a face's sign is neither 1 nor -1.
pub fn check_faces(faces: [OrientedBlockFace; 6]) -> Result<(), Refusal>
    ensures { meaning result ≡ checked (bad_faces faces) }
{
    for (k, face) in faces.iter().enumerate() {
        if let Err(refusal) = face.check_sign() {
            return Err(refusal.reason.at(k as u64));
        }
    }
    Ok(())
}

// 7: a visited buffer shorter than the shape has voxels.
pub fn check_visited_count(lent: usize, voxels_shape: UVec3) -> Result<(), Refusal>
    ensures { meaning result ≡ checked (few_visited lent voxels_shape) }
{
    if fewer(lent, voxels_shape.x, voxels_shape.y, voxels_shape.z) {
        return Err(Reason::FewVisited.at(0));
    }
    Ok(())
}

// The greatest voxel of a row, or 0. The loop has no way out but its end, so that it is vectorized.
fn greatest(voxels: &[u16], start: VoxelIndex, wide: u32) -> u16
    requires { RowLent (length voxels.now) start.0 wide }
    ensures { AtMost voxels.now start.0 wide result }
{
    let first = start.0 as usize;
    let end = first + wide as usize;
    let mut most: u16 = 0;
    for i in first..end {
        most = most.max(voxels[i]);
    }
    most
}

// The first bad voxel of a row, voxel by voxel.
fn first_bad(voxels: &[u16], start: VoxelIndex, wide: u32) -> Result<(), Refusal>
    requires { RowLent (length voxels.now) start.0 wide }
    ensures { meaning result ≡ checked (row (bad_at voxels.now) wide start.0) }
{
    let first = start.0 as usize;
    let end = first + (wide as usize);
    for i in first..end {
        if voxel::class(voxels[i]) == voxel::BAD {
            return Err(Reason::BadVoxel.at(i as u64));
        }
    }
    Ok(())
}

// The first bad voxel of a row. Bad voxels have the greatest numbers: where the greatest voxel is not
// bad, none is.
fn check_row(voxels: &[u16], start: VoxelIndex, wide: u32) -> Result<(), Refusal>
    requires { RowLent (length voxels.now) start.0 wide }
    ensures { meaning result ≡ checked (row (bad_at voxels.now) wide start.0) }
{
    let most = greatest(voxels, start, wide);
    if voxel::class(most) < voxel::BAD {
        return Ok(());
    }
    first_bad(voxels, start, wide)
}

// The first bad voxel of rows that lie a stride apart, row by row.
fn check_each_row(
    voxels: &[u16],
    start: VoxelIndex,
    wide: u32,
    y_stride: Stride,
    high: u32,
) -> Result<(), Refusal>
    requires { RowsLent (length voxels.now) start.0 wide y_stride.0 high }
    ensures { meaning result ≡ checked (rows (bad_at voxels.now) wide y_stride.0 high start.0) }
{
    let step = y_stride.0;
    let mut i = start.0;
    for k in 0..high {
        check_row(voxels, VoxelIndex(i), wide)?;
        i += step;
    }
    Ok(())
}

// The first bad voxel of rows that lie a stride apart. Rows that touch are one row.
fn check_rows(
    voxels: &[u16],
    start: VoxelIndex,
    wide: u32,
    y_stride: Stride,
    high: u32,
) -> Result<(), Refusal>
    requires { RowsLent (length voxels.now) start.0 wide y_stride.0 high }
    ensures { meaning result ≡ checked (rows (bad_at voxels.now) wide y_stride.0 high start.0) }
{
    if wide == y_stride.0 {
        return check_row(voxels, start, wide * high);
    }
    check_each_row(voxels, start, wide, y_stride, high)
}

// The first bad voxel of slices that lie a stride apart.
fn check_slices(
    voxels: &[u16],
    start: VoxelIndex,
    wide: u32,
    y_stride: Stride,
    high: u32,
    z_stride: Stride,
    deep: u32,
) -> Result<(), Refusal>
    requires { SlicesLent (length voxels.now) start.0 wide y_stride.0 high z_stride.0 deep }
    ensures { meaning result ≡ checked (slices (bad_at voxels.now) wide y_stride.0 high z_stride.0 deep start.0) }
{
    let step = z_stride.0;
    let mut i = start.0;
    for k in 0..deep {
        check_rows(voxels, VoxelIndex(i), wide, y_stride, high)?;
        i += step;
    }
    Ok(())
}

// How many voxels an axis of a box spans, max included.
fn span(min: u32, max: u32) -> u32
    requires { (min < max) × (max < most_voxels) }
    ensures { result ≡ max - min + 1 }
{
    max - min + 1
}

// The first bad voxel of a box that lies in the shape, rows in memory order.
fn check_box(voxels: &[u16], voxels_shape: UVec3, min: UVec3, max: UVec3) -> Result<(), Refusal>
    requires { Held voxels_shape (length voxels.now) min max }
    ensures { meaning result ≡ checked (bad_voxels voxels.now voxels_shape min max) }
{
    let start = VoxelIndex::linearize(voxels_shape, min);
    let y_stride = Stride::new(voxels_shape, Axis::Y);
    let z_stride = Stride::new(voxels_shape, Axis::Z);
    let wide = span(min.x, max.x);
    let high = span(min.y, max.y);
    let deep = span(min.z, max.z);
    check_slices(voxels, start, wide, y_stride, high, z_stride, deep)
}

// 1 to 5: where they pass, the box lies in the shape and every voxel of it was lent.
pub fn check_bounds(lent: usize, voxels_shape: UVec3, min: UVec3, max: UVec3) -> Result<(), Refusal>
    ensures { meaning result ≡ checked (bounds_checks lent voxels_shape min max) }
{
    let shape = check_shape(voxels_shape);
    let counted = first_refusal(shape, check_voxel_count(lent, voxels_shape));
    let ordered = first_refusal(counted, check_min(min, max));
    let inside = first_refusal(ordered, check_max(voxels_shape, max));
    first_refusal(inside, check_span(min, max))
}

// 8, a bad voxel inside the box, after 1 to 5, without which there is no box to look at.
pub fn check_voxels(
    voxels: &[u16],
    voxels_shape: UVec3,
    min: UVec3,
    max: UVec3,
) -> Result<(), Refusal>
    ensures { meaning result ≡ checked (box_checks voxels.now voxels_shape min max) }
{
    check_bounds(voxels.len(), voxels_shape, min, max)?;
    check_box(voxels, voxels_shape, min, max)
}

// What an accepted call needs.
fn entered(voxels_shape: UVec3, lent: usize, min: UVec3, max: UVec3) -> Entry
    requires { Held voxels_shape lent min max }
    ensures { result ≡ entry voxels_shape min max }
{
    let xy = voxels_shape.x * voxels_shape.y;
    let size = xy * voxels_shape.z;
    let x = min.x + 1;
    let y = min.y + 1;
    let z = min.z + 1;
    let interior = Extent {
        minimum: UVec3 { x, y, z },
        bound: max,
    };
    Entry { size, interior }
}

// The end of an entry: what was refused before, or 8, or what an accepted call needs.
fn enter(
    before: Result<(), Refusal>,
    voxels: &[u16],
    voxels_shape: UVec3,
    min: UVec3,
    max: UVec3,
) -> Result<Entry, Refusal>
    ensures { meaning result ≡ follow (meaning before) (answer (box_checks voxels.now voxels_shape min max) (entry voxels_shape min max)) }
{
    before?;
    check_voxels(voxels, voxels_shape, min, max)?;
    Ok(entered(voxels_shape, voxels.len(), min, max))
}

// The entry of unit meshing: 1 to 6, then 8.
pub fn enter_unit(
    voxels: &[u16],
    voxels_shape: UVec3,
    min: UVec3,
    max: UVec3,
    faces: [OrientedBlockFace; 6],
) -> Result<Entry, Refusal>
    ensures { meaning result ≡ answer (unit_checks voxels.now voxels_shape min max faces) (entry voxels_shape min max) }
{
    let bounds = check_bounds(voxels.len(), voxels_shape, min, max);
    let before = first_refusal(bounds, check_faces(faces));
    enter(before, voxels, voxels_shape, min, max)
}

// The entry of greedy meshing, with the number of visited bytes lent: 1 to 8.
pub fn enter_greedy(
    voxels: &[u16],
    voxels_shape: UVec3,
    min: UVec3,
    max: UVec3,
    faces: [OrientedBlockFace; 6],
    visited: usize,
) -> Result<Entry, Refusal>
    ensures { meaning result ≡ answer (greedy_checks voxels.now voxels_shape min max faces visited) (entry voxels_shape min max) }
{
    let bounds = check_bounds(voxels.len(), voxels_shape, min, max);
    let faced = first_refusal(bounds, check_faces(faces));
    let before = first_refusal(faced, check_visited_count(visited, voxels_shape));
    enter(before, voxels, voxels_shape, min, max)
}
