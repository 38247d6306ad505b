// How a rectangle is picked, after greedy/merge_strategy.rs: `VoxelMerger`'s walk.
ghost use Rattle.std.specs.Prelude.{◌≡◌, length};
ghost use Rattle.greedy.specs.Walks.{WalkReady, QuadReady, row_at, quad_at};
ghost use Rattle.rules.specs.Merger as rule;

use crate::FaceView;
use voxels::index::VoxelIndex;
use voxels::voxel;

// A rectangle, and how many voxels were tested to find it.
#[derive(Clone, Copy)]
pub(crate) struct FoundQuad {
    pub width: u32,
    pub height: u32,
    pub tests: u64,
}

// What a row walk got, and how many voxels it tested.
#[derive(Clone, Copy)]
struct RowWalk {
    width: u32,
    tests: u32,
}

impl<'a> FaceView<'a> {
    // How many voxels from `start` on along u need a mesh and are uniform with the quad's first, before
    // one does not; at most `max_width`.
    fn get_row_width(&self, quad_voxel: u16, start: VoxelIndex, max_width: u32) -> RowWalk
        requires { WalkReady (length self.now.voxels.now) (length self.now.visited.now) self.now.strides.visibility_offset.0 start.0 self.now.strides.u_stride.0 max_width }
        ensures { rule.walk result.width result.tests ≡ row_at self.now.voxels.now self.now.visited.now self.now.strides.visibility_offset.0 quad_voxel self.now.strides.u_stride.0 max_width start.0 }
    {
        for width in 0..max_width {
            let index = start.0 + width * self.strides.u_stride.0;
            if !self.face_needs_mesh(VoxelIndex(index)) {
                let tests = width + 1;
                return RowWalk { width, tests };
            }
            if !voxel::uniform(quad_voxel, self.voxels[index as usize]) {
                let tests = width + 1;
                return RowWalk { width, tests };
            }
        }
        RowWalk {
            width: max_width,
            tests: max_width,
        }
    }

    // The rectangle that the walk finds from a voxel that needs a mesh: as wide as a row goes along u,
    // and as high as whole rows of that width follow along v.
    pub(crate) fn find_quad(
        &self,
        min_index: VoxelIndex,
        max_width: u32,
        max_height: u32,
    ) -> FoundQuad
        requires { QuadReady (length self.now.voxels.now) (length self.now.visited.now) self.now.strides.visibility_offset.0 min_index.0 self.now.strides.u_stride.0 max_width self.now.strides.v_stride.0 max_height }
        ensures { rule.pick result.width result.height result.tests ≡ quad_at self.now.voxels.now self.now.visited.now self.now.strides.visibility_offset.0 self.now.strides.u_stride.0 self.now.strides.v_stride.0 max_width max_height min_index.0 }
    {
        let quad_voxel = self.voxels[min_index.0 as usize];
        let row = self.get_row_width(quad_voxel, min_index, max_width);
        let width = row.width;
        let mut tests = row.tests as u64;
        for height in 1..max_height {
            let start = min_index.0 + height * self.strides.v_stride.0;
            let next = self.get_row_width(quad_voxel, VoxelIndex(start), width);
            tests += next.tests as u64;
            if next.width < width {
                return FoundQuad {
                    width,
                    height,
                    tests,
                };
            }
        }
        FoundQuad {
            width,
            height: max_height,
            tests,
        }
    }
}
