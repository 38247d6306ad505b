// The meshers' calls, over crates simple and greedy. `answer` gets nine numbers: the refusal, or 0 where the
// call is accepted; its place; the six counts; and the tests.
ghost use Rattle.std.specs.Prelude.{◌≡◌};
ghost use Rattle.geometry.specs.Answers.{meaning};
ghost use Rattle.spunmarrow.specs.Mesh.{nine_of, unit_left, unit_call, greedy_left, greedy_call};

use crate::numbers;
use geometry::refusal::Refusal;
use greedy::GreedyMesh;

// The nine numbers of what a mesher gave. A refusal has zeros for all counts and for the tests.
fn nine(gave: Result<GreedyMesh, Refusal>) -> [u64; 9]
    ensures { result ≡ nine_of (meaning gave) }
{
    match gave {
        Ok(mesh) => {
            let [a, b, c, d, e, f] = mesh.counts;
            [0, 0, a, b, c, d, e, f, mesh.tests]
        }
        Err(refusal) => {
            let number = u64::from(u32::from(refusal.reason));
            [number, refusal.place, 0, 0, 0, 0, 0, 0, 0]
        }
    }
}

// Unit meshing makes no tests.
fn unit(
    shape: &[u32; 3],
    min: &[u32; 3],
    max: &[u32; 3],
    faces: &[i32; 12],
    voxels: &[u16],
    out: &mut [u32],
) -> Result<GreedyMesh, Refusal>
    ensures { unit_left (nine_of (meaning result)) out.new ≡ unit_call shape.now min.now max.now faces.now voxels.now out.old }
{
    numbers::check_faces(faces)?;
    let counts = simple::visible_block_faces(
        voxels,
        numbers::point(shape),
        numbers::point(min),
        numbers::point(max),
        numbers::faces(faces),
        out,
    )?;
    Ok(GreedyMesh { counts, tests: 0 })
}

// A unit quad for every visible face inside a box. Refuses by 17, then as `visible_block_faces` does.
pub fn spunmarrow_visible_block_faces(
    shape: &[u32; 3],
    min: &[u32; 3],
    max: &[u32; 3],
    faces: &[i32; 12],
    voxels: &[u16],
    out: &mut [u32],
    answer: &mut [u64; 9],
)
    ensures { unit_left answer.new out.new ≡ unit_call shape.now min.now max.now faces.now voxels.now out.old }
{
    *answer = nine(unit(shape, min, max, faces, voxels, out));
}

// Greedy meshing.
fn greedy(
    shape: &[u32; 3],
    min: &[u32; 3],
    max: &[u32; 3],
    faces: &[i32; 12],
    voxels: &[u16],
    visited: &mut [u8],
    out: &mut [u32],
) -> Result<GreedyMesh, Refusal>
    ensures { greedy_left (nine_of (meaning result)) visited.new out.new ≡ greedy_call shape.now min.now max.now faces.now voxels.now visited.old out.old }
{
    numbers::check_faces(faces)?;
    greedy::greedy_quads(
        voxels,
        numbers::point(shape),
        numbers::point(min),
        numbers::point(max),
        numbers::faces(faces),
        visited,
        out,
    )
}

// The visible faces inside a box as rectangles, each of one merge value. Refuses by 17, then as
// `greedy_quads` does.
pub fn spunmarrow_greedy_quads(
    shape: &[u32; 3],
    min: &[u32; 3],
    max: &[u32; 3],
    faces: &[i32; 12],
    voxels: &[u16],
    visited: &mut [u8],
    out: &mut [u32],
    answer: &mut [u64; 9],
)
    ensures { greedy_left answer.new visited.new out.new ≡ greedy_call shape.now min.now max.now faces.now voxels.now visited.old out.old }
{
    *answer = nine(greedy(shape, min, max, faces, voxels, visited, out));
}
