// Greedy meshing: quads as large as the walk of the Rust's `VoxelMerger` makes them, after greedy.rs
// and greedy/merge_strategy.rs.
//
// A face is meshed at a time, slice by slice along n, and a slice in scan order. The marks are a byte
// a voxel. Strides and offsets are computed once a face, and along a row a voxel's index is the one
// before it and a stride. A row passes the voxels that need no mesh in a loop of its own, which
// carries no more than their test takes.
#![tactic(auto)]

ghost use Rattle.std.specs.Prelude.{◌≡◌, ◌+◌, ◌*◌, ◌<◌, ◌≤◌, length};
ghost use Rattle.geometry.specs.Refusal.{accepted};
ghost use Rattle.geometry.specs.Answers.{meaning};
ghost use Rattle.voxels.specs.Entered.{most_voxels};
ghost use Rattle.listing.specs.Pushed.{output, pushed};
ghost use Rattle.greedy.specs.Greedy.{quad_numbers, numbers_of, listed, greedy_answer, outcome, greedy_from, greedy_quads};
ghost use Rattle.greedy.specs.Walks.{Touches, needs_at, WalkReady, Idle};
ghost use Rattle.greedy.specs.Scans.{progress, listed_on, SameCall, SpotReady, RowScan, SliceScan, SlicesScan, voxel_tests, row_tests, slice_tests, face_tests, ample_tests, RoomFor, Accepted, QuadLaid, RowScanned, SliceScanned, SlicesScanned, FaceMeshed, FacesMeshed};
ghost use Rattle.voxels.specs.Shape as shape;

mod block;
mod face_scan;
mod merge_strategy;
mod visited;

use crate::block::Block;
use crate::face_scan::{FaceScan, FaceStrides};
use geometry::axis::Axes;
use geometry::face::OrientedBlockFace;
use geometry::quad::UnorientedQuad;
use geometry::refusal::Refusal;
use geometry::vector::UVec3;
use voxels::extent::Extent;
use voxels::index::{Stride, VoxelIndex};
use voxels::{bounds, voxel};

// How many numbers a listed quad has: minimum x, y, z, width, height.
pub const QUAD_NUMBERS: usize = 5;

// What greedy meshing reports of a call that is not refused.
#[derive(Clone, Copy)]
pub struct GreedyMesh {
    // How many quads each of the six groups has.
    pub counts: [u64; 6],
    // The voxel tests, summed over the six faces.
    pub tests: u64,
}

// A block as the group of a face sees it: its voxels, their marks, and the face's strides.
#[derive(Clone, Copy)]
struct FaceView<'a> {
    voxels: &'a [u16],
    visited: &'a [u8],
    strides: FaceStrides,
}

impl<'a> FaceView<'a> {
    // Whether a voxel's face needs to be meshed: it is not empty, it is not visited yet, and it shows
    // its face to its neighbor.
    fn face_needs_mesh(&self, index: VoxelIndex) -> bool
        requires { Touches (length self.now.voxels.now) (length self.now.visited.now) self.now.strides.visibility_offset.0 index.0 }
        ensures { result ≡ needs_at self.now.voxels.now self.now.visited.now self.now.strides.visibility_offset.0 index.0 }
    {
        let i = index.0 as usize;
        let voxel = self.voxels[i];
        if voxel::class(voxel) == voxel::EMPTY {
            return false;
        }
        if self.visited[i] != 0 {
            return false;
        }
        let adjacent = index.offset(self.strides.visibility_offset);
        let j = adjacent.0 as usize;
        voxel::shows_face(voxel, self.voxels[j])
    }

    // How many voxels from `start` on, `delta` apart, need no mesh before one does; at most `most`.
    fn idle(&self, start: VoxelIndex, delta: Stride, most: u32) -> u32
        requires { WalkReady (length self.now.voxels.now) (length self.now.visited.now) self.now.strides.visibility_offset.0 start.0 delta.0 most }
        ensures { Idle self.now.voxels.now self.now.visited.now self.now.strides.visibility_offset.0 start.0 delta.0 most result }
    {
        // The index steps: as `start.0 + k * delta.0` the compiler stepped four and multiplied, and an empty
        // block of 64 (bench/run, greedy) took 25,970,645 instructions, and takes 14,019,306 so.
        let mut index = start.0;
        for k in 0..most {
            if self.face_needs_mesh(VoxelIndex(index)) {
                return k;
            }
            index += delta.0;
        }
        most
    }
}

// A call underway: its block, the buffers that it was lent, and how far it is.
#[derive(Drop)]
struct Mesher<'a> {
    block: Block<'a>,
    visited: &'a mut [u8],
    out: &'a mut [u32],
    // The quads that it has listed, written or not.
    listed: usize,
    // The voxel tests that it has made.
    tests: u64,
}

// SameCall stands in each contract: a struct can't say itself that a field lends the same buffer still.
impl<'a> Mesher<'a> {
    // Its block as the group of a face sees it now.
    fn view(&self, strides: FaceStrides) -> FaceView<'_>
        ensures voxels { result.voxels.now ≡ self.now.block.voxels.now }
        ensures visited { result.visited.now ≡ self.now.visited.now }
        ensures strides { result.strides ≡ strides }
    {
        FaceView {
            voxels: self.block.voxels,
            visited: self.visited,
            strides,
        }
    }

    // Lists a quad: its minimum's three numbers, its width and its height.
    fn push(&mut self, quad: UnorientedQuad)
        requires { self.old.listed ≤ ample_tests }
        ensures pushed { progress self.new ≡ listed_on (progress self.old) quad }
        ensures same_call { SameCall self.old self.new }
    {
        let UVec3 { x, y, z } = quad.minimum;
        let item = [x, y, z, quad.width, quad.height];
        listing::push(self.out, self.listed, &item);
        self.listed += 1;
    }

    // Picks the quad of a voxel that needs a mesh, marks it and lists it.
    fn lay_quad(&mut self, scan: &FaceScan, minimum: UVec3, min_index: VoxelIndex)
        requires room_for { RoomFor voxel_tests (progress self.old) }
        requires spot_ready { SpotReady (length self.old.block.voxels.now) (length self.old.visited.now) scan.now minimum min_index.0 }
        ensures laid { QuadLaid self.old.block.voxels.now scan.now minimum min_index.0 (progress self.old) (progress self.new) }
        ensures same_call { SameCall self.old self.new }
    {
        let Axes { u, v, .. } = scan.axes;
        let max_width = u.coordinate(scan.bound) - u.coordinate(minimum);
        let max_height = v.coordinate(scan.bound) - v.coordinate(minimum);
        let view = self.view(scan.strides);
        let found = view.find_quad(min_index, max_width, max_height);
        let quad = UnorientedQuad {
            minimum,
            width: found.width,
            height: found.height,
        };
        visited::mark_quad(self.visited, scan.strides, quad, min_index);
        self.push(quad);
        self.tests += 1 + found.tests;
    }

    // Scans a row of a slice: passes the voxels that need no mesh, and lays the quad of each that does.
    fn scan_row(&mut self, scan: &FaceScan, slice: u32, row: u32, start: VoxelIndex)
        requires room_for { RoomFor (row_tests scan.now) (progress self.old) }
        requires row_scan { RowScan (length self.old.block.voxels.now) (length self.old.visited.now) scan.now slice row start.0 }
        ensures scanned { RowScanned self.old.block.voxels.now scan.now slice row start.0 (progress self.old) (progress self.new) }
        ensures same_call { SameCall self.old self.new }
    {
        let Axes { n, .. } = scan.axes;
        let span = scan.row;
        let mut k: u32 = 0;
        let mut index = start.0;
        // A `while`, since a turn passes several voxels: those up to one that needs a mesh, and that one.
        while k < span.count {
            let view = self.view(scan.strides);
            let passed = view.idle(VoxelIndex(index), span.stride, span.count - k);
            self.tests += passed as u64;
            k += passed;
            index += passed * span.stride.0;
            if k == span.count {
                return;
            }
            let minimum = face_scan::spot(n, slice, row, span.start + k);
            self.lay_quad(scan, minimum, VoxelIndex(index));
            k += 1;
            index += span.stride.0;
        }
    }

    // Scans a slice, row by row.
    fn scan_slice(&mut self, scan: &FaceScan, slice: u32, start: VoxelIndex)
        requires room_for { RoomFor (slice_tests scan.now) (progress self.old) }
        requires slice_scan { SliceScan (length self.old.block.voxels.now) (length self.old.visited.now) scan.now slice start.0 }
        ensures scanned { SliceScanned self.old.block.voxels.now scan.now slice start.0 (progress self.old) (progress self.new) }
        ensures same_call { SameCall self.old self.new }
    {
        let span = scan.rows;
        for k in 0..span.count {
            let index = start.0 + k * span.stride.0;
            self.scan_row(scan, slice, span.start + k, VoxelIndex(index));
        }
    }

    // Scans all slices, low to high.
    fn scan_slices(&mut self, scan: &FaceScan, start: VoxelIndex)
        requires room_for { RoomFor (face_tests scan.now) (progress self.old) }
        requires slices_scan { SlicesScan (length self.old.block.voxels.now) (length self.old.visited.now) scan.now start.0 }
        ensures scanned { SlicesScanned self.old.block.voxels.now scan.now start.0 (progress self.old) (progress self.new) }
        ensures same_call { SameCall self.old self.new }
    {
        let span = scan.slices;
        for k in 0..span.count {
            let index = start.0 + k * span.stride.0;
            self.scan_slice(scan, span.start + k, VoxelIndex(index));
        }
    }

    // The group of a face: clears the marks, one a voxel of the shape, and scans the interior.
    fn greedy_quads_for_face(&mut self, face: OrientedBlockFace)
        requires room_for { RoomFor (most_voxels * voxel_tests) (progress self.old) }
        requires accepted { Accepted (length self.old.block.voxels.now) (length self.old.visited.now) self.old.block.voxels_shape self.old.block.interior }
        ensures meshed { FaceMeshed self.old.block.voxels.now self.old.block.voxels_shape self.old.block.interior face (progress self.old) (progress self.new) }
        ensures same_call { SameCall self.old self.new }
    {
        let block = self.block;
        visited::clear(self.visited, block.size);
        let scan = FaceScan::new(block.voxels_shape, block.interior, face);
        let start = VoxelIndex::linearize(block.voxels_shape, block.interior.minimum);
        self.scan_slices(&scan, start);
    }
}

// What all faces listed and tested, and how many quads each listed.
#[derive(Clone, Copy)]
struct Meshed {
    listed: usize,
    tests: u64,
    counts: [u64; 6],
}

// The groups of all faces, one after another.
fn mesh_faces(
    block: Block,
    faces: [OrientedBlockFace; 6],
    visited: &mut [u8],
    out: &mut [u32],
) -> Meshed
    requires { Accepted (length block.voxels.now) (length visited.old) block.voxels_shape block.interior }
    ensures { FacesMeshed block.entry.voxels.now block.entry.voxels_shape block.entry.interior faces visited.old out.old visited.new out.new result }
{
    let mut mesher = Mesher {
        block,
        visited,
        out,
        listed: 0,
        tests: 0,
    };
    let mut counts = [0u64; 6];
    for (k, face) in faces.iter().enumerate() {
        let before = mesher.listed;
        mesher.greedy_quads_for_face(*face);
        counts[k] = (mesher.listed - before) as u64;
    }
    Meshed {
        listed: mesher.listed,
        tests: mesher.tests,
        counts,
    }
}

// The report of an accepted call, what it lists, and the marks cleared again.
fn mesh(
    voxels: &[u16],
    voxels_shape: UVec3,
    size: usize,
    interior: Extent,
    faces: [OrientedBlockFace; 6],
    visited: &mut [u8],
    out: &mut [u32],
) -> Result<GreedyMesh, Refusal>
    requires size_value { size ≡ shape.size voxels_shape }
    requires accepted { Accepted (length voxels.now) (length visited.old) voxels_shape interior }
    ensures { outcome (greedy_answer (meaning result)) visited.new out.new ≡ greedy_from (accepted tt) size interior (shape.field voxels_shape voxels.now) faces visited.old out.old }
{
    let capacity = out.len() / QUAD_NUMBERS;
    let block = Block {
        voxels,
        voxels_shape,
        size,
        interior,
    };
    let meshed = mesh_faces(block, faces, visited, out);
    visited::clear(visited, size);
    let counts = listing::answered(meshed.listed, capacity, meshed.counts)?;
    Ok(GreedyMesh {
        counts,
        tests: meshed.tests,
    })
}

// Quads that cover every visible face of a voxel in the interior of the box from `min` to `max`: six
// groups in the order of `faces`, end to end in `out`, five numbers a quad, each group's quads in the
// order that greedy meshing finds them.
//
// Anything may be handed in. A call that is refused by 1 to 8 leaves both buffers as they were, one that
// is refused by 9, more quads than fit, the first of them in `out`. `visited` has a byte a
// voxel of the shape, or more. What it holds does not matter; where the call is not refused by 1 to 8
// those bytes are 0 afterwards. Nothing past the last quad written in `out`, and no other byte of
// `visited`, is changed.
pub fn greedy_quads(
    voxels: &[u16],
    voxels_shape: UVec3,
    min: UVec3,
    max: UVec3,
    faces: [OrientedBlockFace; 6],
    visited: &mut [u8],
    out: &mut [u32],
) -> Result<GreedyMesh, Refusal>
    ensures { outcome (greedy_answer (meaning result)) visited.new out.new ≡ greedy_quads voxels.now voxels_shape min max faces visited.old out.old }
{
    let entry = bounds::enter_greedy(voxels, voxels_shape, min, max, faces, visited.len())?;
    mesh(
        voxels,
        voxels_shape,
        entry.size as usize,
        entry.interior,
        faces,
        visited,
        out,
    )
}
