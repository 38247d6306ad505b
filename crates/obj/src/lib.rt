// Wavefront OBJ text of a greedy mesh: the line `o mesh`, and for each quad, in group and list order,
// four `v` lines with its corners and two `f` lines with its vertex numbers, counted from 1.
//
// The call promises its whole outcome for any input, by one equation with a definition of specs/, and
// requires nothing. It checks the mesh, looks whether its text fits, and then writes it.
#![tactic(auto)]

mod measure;
mod mesh;
mod put;

ghost use Rattle.std.specs.Prelude.{◌≡◌};
ghost use Rattle.geometry.specs.Answers.{meaning};
ghost use Rattle.writing.specs.Written.{write_answer, outcome};
ghost use Rattle.obj.specs.Obj.{write_obj};

use crate::mesh::Mesh;
use geometry::face::OrientedBlockFace;
use geometry::refusal::{Reason, Refusal};
use writing::handed;

// Writes a mesh, as greedy meshing leaves it, at the start of the output, and answers how many bytes it
// wrote. Refuses by 24, 6, 12, 13 and then by 15 where the text is longer than the output; then
// nothing is written.
pub fn write_obj(
    faces: [OrientedBlockFace; 6],
    counts: [u64; 6],
    quads: &[u32],
    out: &mut [u8],
) -> Result<usize, Refusal>
    ensures { outcome (write_answer (meaning result)) out.new ≡ write_obj faces counts quads.now out.old }
{
    let all = handed::check_listed(faces, counts, quads)?;
    let mesh = Mesh {
        faces,
        counts,
        quads,
        all,
    };
    if !measure::fits(&mesh, out.len()) {
        return Err(Reason::ShortOutput.at(0));
    }
    Ok(put::mesh(&mesh, out))
}
