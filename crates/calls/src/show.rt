// Writing what comes out of a call: numbers, with a space before each, or a comma within a point or a
// quad.
ghost use Rattle.std.specs.Prelude.{◌∷◌, [], IfSome, OnOk};
ghost use Rattle.std.specs.Io.KnownBytes.{Appends};
ghost use Rattle.geometry.specs.Answers.{number, meaning};
ghost use Rattle.calls.specs.Show as shown;

use geometry::refusal::Refusal;
use geometry::vector::UVec3;
use std::fmt::Display;
use std::io::{self, Write};

// What stands for nothing.
pub fn unknown<W: Write>(out: &mut W) -> io::Result<()>
    ensures { OnOk result (Appends (W.contents out.old) (W.contents out.new) (63 ∷ [])) }
{
    out.write_all(b"?")
}

// A number.
pub fn number<W: Write, N: Display + Drop>(out: &mut W, n: N) -> io::Result<()>
    ensures { OnOk result (IfSome (N.output n) (λ bytes. Appends (W.contents out.old) (W.contents out.new) (32 ∷ bytes))) }
{
    write!(out, " {n}")
}

// The numbers of a point or a quad.
pub fn numbers<W: Write>(out: &mut W, numbers: &[u32]) -> io::Result<()>
    ensures { OnOk result (Appends (W.contents out.old) (W.contents out.new) (shown.numbers numbers.now)) }
{
    let Some((first, others)) = numbers.split_first() else {
        return Ok(());
    };
    write!(out, " {first}")?;
    for n in others {
        write!(out, ",{n}")?;
    }
    Ok(())
}

// A point.
pub fn point<W: Write>(out: &mut W, p: UVec3) -> io::Result<()>
    ensures { OnOk result (Appends (W.contents out.old) (W.contents out.new) (shown.point p)) }
{
    numbers(out, &[p.x, p.y, p.z])
}

// A refusal and its place.
pub fn refusal<W: Write>(out: &mut W, refused: Refusal) -> io::Result<()>
    ensures { OnOk result (Appends (W.contents out.old) (W.contents out.new)
        (shown.refusal (number refused.reason) refused.place)) }
{
    write!(out, " {} {}", u32::from(refused.reason), refused.place)
}

// What a check answers: 0, or a refusal and its place.
pub fn check<W: Write>(out: &mut W, came: Result<(), Refusal>) -> io::Result<()>
    ensures { OnOk result (Appends (W.contents out.old) (W.contents out.new) (shown.check (meaning came))) }
{
    match came {
        Ok(()) => number(out, 0),
        Err(refused) => refusal(out, refused),
    }
}
