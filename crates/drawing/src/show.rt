// Writing what comes out of a call of the drawing code, besides what crate calls writes.
pub use calls::show::{check, number, numbers, point, unknown};
use geometry::face::OrientedBlockFace;
use geometry::refusal::Refusal;
use geometry::vector::IVec3;
use std::io::{self, Write};

// A sign that geometry gives, or a part of a normal: 1, 0 or -1. Another is written as a question mark.
pub fn sign(out: &mut impl Write, n: i32) -> io::Result<()> {
    match n {
        -1..=1 => number(out, n),
        _ => unknown(out),
    }
}

// A direction's three numbers.
pub fn direction<W: Write>(out: &mut W, v: IVec3) -> io::Result<()> {
    sign(out, v.x)?;
    sign(out, v.y)?;
    sign(out, v.z)
}

// A face: its sign and its permutation's number.
pub fn face<W: Write>(out: &mut W, f: OrientedBlockFace) -> io::Result<()> {
    sign(out, f.n_sign)?;
    number(out, u32::from(f.permutation))
}

// What a call of the drawing code gives: its value by `write`, or its refusal's number.
pub fn came<W: Write, T, F>(out: &mut W, answer: Result<T, Refusal>, write: F) -> io::Result<()>
where
    F: FnOnce(&mut W, T) -> io::Result<()>,
    requires { F.IsAlwaysCallable write }
{
    match answer {
        Ok(value) => write(out, value),
        Err(refused) => number(out, u32::from(refused.reason)),
    }
}

// f32 numbers, each by its bits: eight digits of base 16 after an x. A NaN, which no call gives, is
// written as a question mark.
pub fn floats(out: &mut impl Write, xs: &[f32]) -> io::Result<()> {
    for x in xs {
        if x.is_nan() {
            unknown(out)?;
        } else {
            write!(out, " x{:08x}", x.to_bits())?;
        }
    }
    Ok(())
}
