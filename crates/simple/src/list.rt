// Lists the quads: each visible face's quad goes to its face's run of the output, in one pass over the
// voxels, after the loop of simple.rs. Where each run begins is known from counting.
//
// The output and the cursors stay apart: of a struct that held the `&mut`, each contract would have to add
// that it holds the same one still.
ghost use Rattle.std.specs.Prelude.{◌≡◌, ◌<◌};
ghost use Rattle.listing.specs.Pushed.{output, pushed};
ghost use Rattle.simple.specs.Unit.{unit_numbers, numbers_of};
ghost use Rattle.simple.specs.Ready.{most_listed, VoxelCountable};
ghost use Rattle.simple.specs.List.{VoxelListed, RowListable, RowListed, RowsListable, RowsListed, SlicesListable, SlicesListed};

use crate::block::{Block, Place};
use crate::rows::{Rows, Slices};
use geometry::vector::UVec3;
use voxels::index::VoxelIndex;
use voxels::voxel;

// Lists a unit quad: its minimum's three numbers.
fn push(out: &mut [u32], listed: usize, minimum: UVec3) -> usize
    requires { listed < most_listed }
    ensures { output out.new result ≡ pushed unit_numbers numbers_of (output out.old listed) minimum }
{
    let item = [minimum.x, minimum.y, minimum.z];
    listing::push(out, listed, &item);
    listed + 1
}

impl Block<'_> {
    // Lists the quads of the faces that a voxel shows, each where its face's cursor is.
    fn list_voxel(&self, out: &mut [u32], cursors: &mut [usize; 6], voxel: Place)
        requires { VoxelCountable self.now cursors.old voxel.index.0 }
        ensures { VoxelListed self.now voxel.index.0 voxel.point out.old cursors.old out.new cursors.new }
    {
        let i = voxel.index.0 as usize;
        let sight = voxel::sight(self.voxels[i]);
        if sight == 0 {
            return;
        }
        for (f, stride) in self.strides.iter().enumerate() {
            let neighbor = voxel.index.offset(*stride);
            let j = neighbor.0 as usize;
            if self.voxels[j] < sight {
                cursors[f] = push(out, cursors[f], voxel.point);
            }
        }
    }

    // Lists the quads of a row. The index is counted beside k: computed from it, a checkered block takes
    // 14 % more instructions and a random one 9 %.
    fn list_row(&self, out: &mut [u32], cursors: &mut [usize; 6], from: Place, wide: u32)
        requires { RowListable self.now cursors.old wide from.index.0 from.point }
        ensures { RowListed self.now wide from.index.0 from.point out.old cursors.old out.new cursors.new }
    {
        let start = from.point;
        let mut i = from.index.0;
        for k in 0..wide {
            let x = start.x + k;
            let voxel = Place {
                index: VoxelIndex(i),
                point: UVec3 { x, ..start },
            };
            self.list_voxel(out, cursors, voxel);
            i += 1;
        }
    }

    // Lists the quads of a slice, row by row.
    #[tactic(auto, using(crate::proofs::Counting::place_fits))]
    fn list_slice(&self, out: &mut [u32], cursors: &mut [usize; 6], from: Place, rows: Rows)
        requires { RowsListable self.now cursors.old rows from.index.0 from.point }
        ensures { RowsListed self.now rows from.index.0 from.point out.old cursors.old out.new cursors.new }
    {
        let start = from.point;
        for k in 0..rows.high {
            let y = start.y + k;
            let row = Place {
                index: VoxelIndex(from.index.0 + k * rows.stride.0),
                point: UVec3 { y, ..start },
            };
            self.list_row(out, cursors, row, rows.wide);
        }
    }

    // Lists the quads of all slices along z.
    #[tactic(auto, using(crate::proofs::Counting::place_fits))]
    pub(crate) fn list_slices(
        &self,
        out: &mut [u32],
        cursors: &mut [usize; 6],
        from: Place,
        slices: Slices,
    )
        requires { SlicesListable self.now cursors.old slices from.index.0 from.point }
        ensures { SlicesListed self.now slices from.index.0 from.point out.old cursors.old out.new cursors.new }
    {
        let start = from.point;
        for k in 0..slices.deep {
            let z = start.z + k;
            let slice = Place {
                index: VoxelIndex(from.index.0 + k * slices.stride.0),
                point: UVec3 { z, ..start },
            };
            self.list_slice(out, cursors, slice, slices.rows);
        }
    }
}
