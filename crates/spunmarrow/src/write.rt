// The writers' calls, over crates obj and digits. `answer` gets three numbers: the refusal, or 0 where the
// call is accepted; its place; and how many bytes were written.
ghost use Rattle.std.specs.Prelude.{◌≡◌};
ghost use Rattle.digits.specs.Decimal.{spelt, spelling};
ghost use Rattle.geometry.specs.Answers.{meaning};
ghost use Rattle.writing.specs.Written.{write_answer};
ghost use Rattle.spunmarrow.specs.Write.{three, write_left, obj_call};

use crate::numbers;
use geometry::refusal::Refusal;

// The three numbers of what a writer gave. A refused one has written nothing.
fn three(gave: Result<usize, Refusal>) -> [u64; 3]
    ensures { result ≡ three (write_answer (meaning gave)) }
{
    match gave {
        Ok(written) => [0, 0, written as u64],
        Err(refusal) => {
            let number = u64::from(u32::from(refusal.reason));
            [number, refusal.place, 0]
        }
    }
}

// A mesh as OBJ text.
fn write_obj(
    faces: &[i32; 12],
    counts: &[u64; 6],
    quads: &[u32],
    out: &mut [u8],
) -> Result<usize, Refusal>
    ensures { write_left (three (write_answer (meaning result))) out.new ≡ obj_call faces.now counts.now quads.now out.old }
{
    numbers::check_faces(faces)?;
    obj::write_obj(numbers::faces(faces), *counts, quads, out)
}

// A mesh as OBJ text. Refuses by 17, then as `write_obj` does.
pub fn spunmarrow_write_obj(
    faces: &[i32; 12],
    counts: &[u64; 6],
    quads: &[u32],
    out: &mut [u8],
    answer: &mut [u64; 3],
)
    ensures { write_left answer.new out.new ≡ obj_call faces.now counts.now quads.now out.old }
{
    *answer = three(write_obj(faces, counts, quads, out));
}

// A number's decimal digits at the start of a scratch: how many there are, or 0 where they do not fit,
// and then the scratch is as it was.
pub fn spunmarrow_decimal(n: u32, scratch: &mut [u8]) -> usize
    ensures { spelt result scratch.new ≡ spelling n scratch.old }
{
    digits::spell(n, scratch)
}
