// Unit meshing: a unit quad for every visible face of a block, after simple.rs.
//
// The Rust makes one pass over the voxels and appends to six vectors. Here the groups lie end to end
// in one lent output, so a pass before it counts the quads of each face; after that it is known where
// each group begins, and the Rust's pass writes to six places of the output.
#![tactic(auto)]

ghost use Rattle.std.specs.Prelude.{◌≡◌, length};
ghost use Rattle.geometry.specs.Refusal.{accepted};
ghost use Rattle.geometry.specs.Answers.{meaning};
ghost use Rattle.voxels.specs.Shape.{field};
ghost use Rattle.listing.specs.Outcome.{mesh_answer, outcome};
ghost use Rattle.simple.specs.Unit.{unit_from, visible_block_faces};
ghost use Rattle.simple.specs.Ready.{Room};
ghost use Rattle.simple.specs.Kernel.{Meshable, kernel_stride, KernelOf, Starts, GroupsMade};

mod block;
mod count;
mod list;
mod rows;

use crate::block::{Block, Place};
use crate::rows::Slices;
use geometry::face::OrientedBlockFace;
use geometry::refusal::Refusal;
use geometry::vector::UVec3;
use voxels::bounds;
use voxels::extent::Extent;
use voxels::index::{Stride, VoxelIndex};

// What leads from a voxel to the one that shares a face.
fn kernel_stride(voxels_shape: UVec3, face: OrientedBlockFace) -> Stride
    ensures { result.0 ≡ kernel_stride voxels_shape face }
{
    let permutation = face.permutation;
    let axes = permutation.axes();
    let n = axes.n;
    let n_stride = Stride::new(voxels_shape, n);
    Stride::visibility_offset(face, n_stride)
}

// The Rust's `kernel_strides`: that of each face.
fn kernel_strides(voxels_shape: UVec3, faces: [OrientedBlockFace; 6]) -> [Stride; 6]
    ensures { KernelOf voxels_shape faces result }
{
    faces.map(|face| kernel_stride(voxels_shape, face))
}

// Where the run of each face begins in the output, and where the last one ends.
fn run_starts(cursors: &mut [usize; 6], counts: &[u64; 6]) -> usize
    requires { (length cursors.old ≡ 6) × Room counts.now 0 }
    ensures { Starts counts.now cursors.new result }
{
    let mut n = 0;
    for (f, count) in counts.iter().enumerate() {
        cursors[f] = n;
        n += *count as usize;
    }
    n
}

// How many quads all faces and each face list.
#[derive(Clone, Copy)]
struct Meshed {
    listed: usize,
    counts: [u64; 6],
}

// Lists the unit quads of all faces: counts them, and then, if there are any, writes each where its
// group has come to.
fn mesh_faces(
    voxels: &[u16],
    out: &mut [u32],
    voxels_shape: UVec3,
    interior: Extent,
    faces: [OrientedBlockFace; 6],
) -> Meshed
    requires { Meshable voxels.now voxels_shape interior }
    ensures { GroupsMade voxels.now voxels_shape interior faces out.old out.new result }
{
    let strides = kernel_strides(voxels_shape, faces);
    let block = Block { voxels, strides };
    let point = interior.minimum;
    let index = VoxelIndex::linearize(voxels_shape, point);
    let slices = Slices::new(voxels_shape, interior);
    let mut counts = [0u64; 6];
    block.count_slices(&mut counts, index, slices);
    let mut cursors = [0usize; 6];
    let listed = run_starts(&mut cursors, &counts);
    if listed == 0 {
        return Meshed { listed, counts };
    }
    block.list_slices(out, &mut cursors, Place { index, point }, slices);
    Meshed { listed, counts }
}

// The counts of an accepted call, and what it lists.
fn mesh(
    voxels: &[u16],
    voxels_shape: UVec3,
    interior: Extent,
    faces: [OrientedBlockFace; 6],
    out: &mut [u32],
) -> Result<[u64; 6], Refusal>
    requires { Meshable voxels.now voxels_shape interior }
    ensures { outcome (mesh_answer (meaning result)) out.new ≡ unit_from (accepted tt) interior (field voxels_shape voxels.now) faces out.old }
{
    let capacity = out.len() / 3;
    let meshed = mesh_faces(voxels, out, voxels_shape, interior, faces);
    listing::answered(meshed.listed, capacity, meshed.counts)
}

// A unit quad for every visible face of a voxel in the interior of the box from `min` to `max`: six
// groups of minima in scan order, end to end in `out`, three numbers a quad.
pub fn visible_block_faces(
    voxels: &[u16],
    voxels_shape: UVec3,
    min: UVec3,
    max: UVec3,
    faces: [OrientedBlockFace; 6],
    out: &mut [u32],
) -> Result<[u64; 6], Refusal>
    ensures { outcome (mesh_answer (meaning result)) out.new ≡ visible_block_faces voxels.now voxels_shape min max faces out.old }
{
    let entry = bounds::enter_unit(voxels, voxels_shape, min, max, faces)?;
    mesh(voxels, voxels_shape, entry.interior, faces, out)
}
