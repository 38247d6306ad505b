// The meshers' calls. `answer` gets nine numbers: the refusal, or 0 where the call is accepted; its place; the
// six counts; and the tests.
ghost use Rattle.std.specs.Prelude.{◌≡◌};
ghost use Rattle.spunmarrow.specs.Mesh.{unit_left, unit_call, greedy_left, greedy_call};

// A unit quad for every visible face inside a box. Refuses by 17, then as `visible_block_faces` does.
#[unsafe(no_mangle)]
pub extern "C" fn spunmarrow_visible_block_faces(
    shape: &[u32; 3],
    min: &[u32; 3],
    max: &[u32; 3],
    faces: &[i32; 12],
    voxels: &[u16],
    out: &mut [u32],
    answer: &mut [u64; 9],
)
    ensures { unit_left answer.new out.new ≡ unit_call shape.now min.now max.now faces.now voxels.now out.old }
{
    spunmarrow::mesh::spunmarrow_visible_block_faces(shape, min, max, faces, voxels, out, answer);
}

// The visible faces inside a box as rectangles, each of one merge value. Refuses by 17, then as
// `greedy_quads` does.
#[unsafe(no_mangle)]
pub extern "C" fn spunmarrow_greedy_quads(
    shape: &[u32; 3],
    min: &[u32; 3],
    max: &[u32; 3],
    faces: &[i32; 12],
    voxels: &[u16],
    visited: &mut [u8],
    out: &mut [u32],
    answer: &mut [u64; 9],
)
    ensures { greedy_left answer.new visited.new out.new ≡ greedy_call shape.now min.now max.now faces.now voxels.now visited.old out.old }
{
    spunmarrow::mesh::spunmarrow_greedy_quads(shape, min, max, faces, voxels, visited, out, answer);
}
