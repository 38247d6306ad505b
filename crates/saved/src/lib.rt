// Saved meshes: a file of seven sections, each after its count, counts and numbers of 32 bits with the
// low byte first. Section 0 has the face bytes, sections 1 to 6 the quads of each group.
//
// The calls promise their whole outcomes for any input, each by one equation with a definition of
// specs/, and require nothing. What they share with another form of such files goes by the form: how
// many numbers a quad has, and which bytes stand after the face bytes.
#![tactic(auto)]

mod face_byte;
mod form;
mod number;
mod place;
mod read;
mod sections;
mod write;

ghost use Rattle.std.specs.Prelude.{◌≡◌};
ghost use Rattle.geometry.specs.Answers.{meaning};
ghost use Rattle.writing.specs.Written.{write_answer, outcome};
ghost use Rattle.saved.specs.Form.{first_form};
ghost use Rattle.saved.specs.Saved.{reader_answer, read_outcome, read_saved, write_saved};
ghost use Rattle.saved.specs.Where.{refusal_byte};

use crate::form::SavedForm;
use crate::write::HandedMesh;
use geometry::face::OrientedBlockFace;
use geometry::refusal::Refusal;
use writing::handed;

// How many numbers a quad has: minimum x, y, z, width, height.
pub const QUAD_NUMBERS: usize = 5;

// The form of these calls: nothing stands after the face bytes.
const FIRST_FORM: SavedForm = SavedForm {
    numbers: QUAD_NUMBERS,
    mark: b"",
};

// What a reader answers of a file that is not refused, beside the quads.
#[derive(Clone, Copy)]
pub struct SavedMesh {
    pub faces: [OrientedBlockFace; 6],
    // How many quads each of the six groups has.
    pub counts: [u64; 6],
}

// Writes a mesh, quads of five numbers, at the start of the output, and answers how many bytes it wrote.
// Refuses by 24, 6, 12, 13 and then by 15 where the file is longer than the output; then nothing is
// written.
pub fn write_saved(
    faces: [OrientedBlockFace; 6],
    counts: [u64; 6],
    quads: &[u32],
    out: &mut [u8],
) -> Result<usize, Refusal>
    ensures { outcome (write_answer (meaning result)) out.new ≡ write_saved faces counts quads.now out.old }
{
    let all = handed::check_five(faces, counts, quads)?;
    let mesh = HandedMesh {
        form: FIRST_FORM,
        faces,
        counts,
        quads,
        all,
    };
    mesh.write(out)
}

// Reads a file: its faces and its counts are the answer, and its quads stand at the start of the output.
// Refuses by 16, 17, 12 and then by 9 where the output holds fewer quads; then nothing is written.
pub fn read_saved(bytes: &[u8], out: &mut [u32]) -> Result<SavedMesh, Refusal>
    ensures { read_outcome (reader_answer (meaning result)) out.new ≡ read_saved bytes.now out.old }
{
    read::read(FIRST_FORM, bytes, out)
}

// The byte of a file where a refusal of `read_saved` stands: 16, where the section's count begins, or
// the first byte past section 6; 17, the face byte; 12, the quad's first byte; any other, byte 0. It is
// at most the file's length, whatever is asked. It may be asked of any number, so that is no `Reason`.
pub fn refusal_byte(bytes: &[u8], refusal: u32, place: u64) -> u64
    ensures { result ≡ refusal_byte first_form refusal place bytes.now }
{
    place::byte(FIRST_FORM, bytes, refusal, place)
}
