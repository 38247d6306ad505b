// The writers' calls. `answer` gets three numbers: the refusal, or 0 where the call is accepted; its place; and
// how many bytes were written.
ghost use Rattle.std.specs.Prelude.{◌≡◌};
ghost use Rattle.digits.specs.Decimal.{spelt, spelling};
ghost use Rattle.spunmarrow.specs.Write.{write_left, obj_call};

// A mesh as OBJ text. Refuses by 17, then as `write_obj` does.
#[unsafe(no_mangle)]
pub extern "C" fn spunmarrow_write_obj(
    faces: &[i32; 12],
    counts: &[u64; 6],
    quads: &[u32],
    out: &mut [u8],
    answer: &mut [u64; 3],
)
    ensures { write_left answer.new out.new ≡ obj_call faces.now counts.now quads.now out.old }
{
    spunmarrow::write::spunmarrow_write_obj(faces, counts, quads, out, answer);
}

// A number's decimal digits at the start of a scratch: how many there are, or 0 where they do not fit,
// and then the scratch is as it was.
#[unsafe(no_mangle)]
pub extern "C" fn spunmarrow_decimal(n: u32, scratch: &mut [u8]) -> usize
    ensures { spelt result scratch.new ≡ spelling n scratch.old }
{
    spunmarrow::write::spunmarrow_decimal(n, scratch)
}
