// How many quads each face will list, so that each face's run of the output is known before anything
// is written.
//
// A slice whose rows are two voxels apart, as those of a box that spans its block along x, is counted as
// one run of voxels, without a branch, less the voxels between its rows. Other slices are counted row
// by row, and a voxel that is empty is passed before any neighbor is looked at.
ghost use Rattle.std.specs.Prelude.{◌≡◌, ◌≤◌};
ghost use Rattle.geometry.specs.Axes.{bit};
ghost use Rattle.voxels.specs.Voxel as rule;
ghost use Rattle.simple.specs.Ready.{RowReady, VoxelCountable, RowCountable, RowsCountable, SlicesCountable};
ghost use Rattle.simple.specs.Count.{row_shown, VoxelCounted, RowCounted, RowsCounted, SlicesCounted, FlatCountable, RunCountable, RunCounted};

use crate::block::Block;
use crate::rows::{Rows, Slices};
use voxels::index::{Stride, VoxelIndex};
use voxels::voxel;

// The longest run whose voxels are counted in 16 bits.
const LONGEST: u32 = 65535;

// 1 where a voxel that is not bad shows its face to its neighbor, else 0.
fn shown(voxel: u16, neighbor: u16) -> u16
    requires { rule.class voxel ≤ 2 }
    ensures { result ≡ bit (rule.shows voxel neighbor) }
{
    u16::from(voxel::class(neighbor) < voxel::class(voxel))
}

// The counts are lent to each method and are no field, for the reason that list.rt gives.
impl Block<'_> {
    // How many voxels of a run show their faces to those that a stride leads to.
    fn count_run(&self, at: VoxelIndex, stride: Stride, long: u32) -> u16
        requires { RowReady self.now.voxels.now stride.0 at.0 long }
        ensures { result ≡ row_shown self.now.voxels.now stride.0 long at.0 }
    {
        let beyond = at.offset(stride);
        let i = at.0 as usize;
        let j = beyond.0 as usize;
        let mut count = 0;
        // By number: a run of no voxels may begin past the list's end, where no slice of it begins.
        for k in 0..long as usize {
            count += shown(self.voxels[i + k], self.voxels[j + k]);
        }
        count
    }

    // Counts the faces that a voxel shows.
    fn count_voxel(&self, counts: &mut [u64; 6], index: VoxelIndex)
        requires { VoxelCountable self.now counts.old index.0 }
        ensures { VoxelCounted self.now counts.old counts.new index.0 }
    {
        let i = index.0 as usize;
        let sight = voxel::sight(self.voxels[i]);
        if sight == 0 {
            return;
        }
        for (f, stride) in self.strides.iter().enumerate() {
            let neighbor = index.offset(*stride);
            let j = neighbor.0 as usize;
            if self.voxels[j] < sight {
                counts[f] += 1;
            }
        }
    }

    // Counts the faces that a row shows.
    fn count_row(&self, counts: &mut [u64; 6], at: VoxelIndex, wide: u32)
        requires { RowCountable self.now counts.old at.0 wide }
        ensures { RowCounted self.now counts.old counts.new at.0 wide }
    {
        for k in 0..wide {
            self.count_voxel(counts, VoxelIndex(at.0 + k));
        }
    }

    // Counts the faces that rows show, row by row.
    fn count_rows(&self, counts: &mut [u64; 6], at: VoxelIndex, rows: Rows)
        requires { RowsCountable self.now counts.old at.0 rows }
        ensures { RowsCounted self.now counts.old counts.new at.0 rows }
    {
        for k in 0..rows.high {
            let i = at.0 + k * rows.stride.0;
            self.count_row(counts, VoxelIndex(i), rows.wide);
        }
    }

    // Counts the faces that a run shows, less so many of each face.
    fn count_runs(&self, counts: &mut [u64; 6], less: &[u64; 6], at: VoxelIndex, long: u32)
        requires { RunCountable self.now counts.old less.now at.0 long }
        ensures { RunCounted self.now less.now counts.old counts.new at.0 long }
    {
        for (f, stride) in self.strides.iter().enumerate() {
            let run = self.count_run(at, *stride, long);
            counts[f] += u64::from(run) - less[f];
        }
    }

    // Counts the faces that a slice shows whose rows are two voxels apart, as one run.
    fn count_flat(&self, counts: &mut [u64; 6], at: VoxelIndex, rows: Rows, long: u32)
        requires { FlatCountable self.now counts.old at.0 rows long }
        ensures { RowsCounted self.now counts.old counts.new at.0 rows }
    {
        let gaps = Rows {
            wide: 2,
            high: rows.high - 1,
            ..rows
        };
        let mut between = [0; 6];
        self.count_rows(&mut between, VoxelIndex(at.0 + rows.wide), gaps);
        self.count_runs(counts, &between, at, long);
    }

    // Counts the faces that a slice shows.
    fn count_slice(&self, counts: &mut [u64; 6], at: VoxelIndex, rows: Rows)
        requires { RowsCountable self.now counts.old at.0 rows }
        ensures { RowsCounted self.now counts.old counts.new at.0 rows }
    {
        let wide = rows.wide;
        let high = rows.high;
        let step = rows.stride.0;
        if wide == 0 || high == 0 {
            return;
        }
        let long = (high - 1) * step + wide;
        if step == wide + 2 && long <= LONGEST {
            self.count_flat(counts, at, rows, long);
        } else {
            self.count_rows(counts, at, rows);
        }
    }

    // Counts the faces that all slices show.
    pub(crate) fn count_slices(&self, counts: &mut [u64; 6], at: VoxelIndex, slices: Slices)
        requires { SlicesCountable self.now counts.old at.0 slices }
        ensures { SlicesCounted self.now counts.old counts.new at.0 slices }
    {
        for k in 0..slices.deep {
            let i = at.0 + k * slices.stride.0;
            self.count_slice(counts, VoxelIndex(i), slices.rows);
        }
    }
}
