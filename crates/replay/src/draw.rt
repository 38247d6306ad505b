// The calls of the drawing code. A record has their input, then the refusal and, where that is 0, the
// numbers of the answer.
use crate::fault::{Error, Fault};
use crate::kind::Kind;
use crate::record::{BEFORE, Record, Source};
use crate::tally::Tally;
use geometry::axis::{Axis, SignedAxis};
use geometry::face::OrientedBlockFace;
use geometry::refusal::Refusal;
use geometry::vector::IVec3;
use spunmarrow::draw;
use std::num::f32_from_bits_with_nan;

// What comes of a call: its refusal, and the words of its output. The refusal is the number that the C
// interface answers, 0 for none, and no Result: a refused call's output is compared too.
#[derive(Clone, Copy)]
struct Outcome<const N: usize> {
    refusal: u32,
    words: [u32; N],
}

// A call as its record has it.
#[derive(Clone, Copy)]
struct Call<const IN: usize, const OUT: usize> {
    kind: Kind,
    source: Source,
    input: [u32; IN],
    expected: Outcome<OUT>,
}

impl<const IN: usize, const OUT: usize> Call<IN, OUT> {
    fn read(mut record: Record<'_>) -> Result<Self, Fault> {
        let kind = record.kind;
        let input = record.take()?;
        let refusal = record.number()?;
        let words = if refusal == 0 {
            record.take()?
        } else {
            [BEFORE; OUT]
        };
        Ok(Call {
            kind,
            source: record.end(refusal)?,
            input,
            expected: Outcome { refusal, words },
        })
    }

    // Counts the call, and compares what came of it.
    fn compare<R: Print>(&self, tally: &mut Tally<'_, R>, came: Outcome<OUT>) -> Result<(), Error> {
        let Outcome { refusal, words } = self.expected;
        tally.replayed(self.kind, self.source);
        tally.compare(
            self.kind,
            "answer (refusal), number",
            &[refusal],
            &[came.refusal],
        )?;
        tally.compare(self.kind, "output number", &words, &came.words)?;
        Ok(())
    }
}

// The bits of a number, or 4294967295 for a NaN, which no answer of a list is.
fn bits(number: f32) -> u32 {
    if number.is_nan() {
        u32::MAX
    } else {
        number.to_bits()
    }
}

pub fn position<R: Print>(tally: &mut Tally<'_, R>, record: Record<'_>) -> Result<(), Error> {
    let call = Call::<9, 3>::read(record)?;
    let [sign, permutation, a, b, c, d, e, corner, size] = call.input;
    let mut out = [f32_from_bits_with_nan(BEFORE); 3];
    let refusal = draw::spunmarrow_corner(
        sign.cast_signed(),
        permutation,
        &[a, b, c, d, e],
        corner,
        f32_from_bits_with_nan(size),
        &mut out,
    );
    let words = out.map(bits);
    call.compare(tally, Outcome { refusal, words })
}

pub fn corners<R: Print>(tally: &mut Tally<'_, R>, record: Record<'_>) -> Result<(), Error> {
    let call = Call::<7, 12>::read(record)?;
    let [sign, permutation, a, b, c, d, e] = call.input;
    let mut words = [BEFORE; 12];
    let quad = [a, b, c, d, e];
    let refusal = draw::spunmarrow_corners(sign.cast_signed(), permutation, &quad, &mut words);
    call.compare(tally, Outcome { refusal, words })
}

pub fn normal<R: Print>(tally: &mut Tally<'_, R>, record: Record<'_>) -> Result<(), Error> {
    let call = Call::<2, 3>::read(record)?;
    let [sign, permutation] = call.input;
    let mut out = [f32_from_bits_with_nan(BEFORE); 3];
    let refusal = draw::spunmarrow_normal(sign.cast_signed(), permutation, &mut out);
    let words = out.map(bits);
    call.compare(tally, Outcome { refusal, words })
}

pub fn indices<R: Print>(tally: &mut Tally<'_, R>, record: Record<'_>) -> Result<(), Error> {
    let call = Call::<3, 6>::read(record)?;
    let [sign, permutation, start] = call.input;
    let mut words = [BEFORE; 6];
    let refusal = draw::spunmarrow_indices(sign.cast_signed(), permutation, start, &mut words);
    call.compare(tally, Outcome { refusal, words })
}

pub fn tex_coords<R: Print>(tally: &mut Tally<'_, R>, record: Record<'_>) -> Result<(), Error> {
    let call = Call::<9, 8>::read(record)?;
    let [sign, permutation, u_flip_axis, flip_v, a, b, c, d, e] = call.input;
    let mut out = [f32_from_bits_with_nan(BEFORE); 8];
    let refusal = draw::spunmarrow_tex_coords(
        sign.cast_signed(),
        permutation,
        u_flip_axis,
        flag(flip_v)?,
        &[a, b, c, d, e],
        &mut out,
    );
    let words = out.map(bits);
    call.compare(tally, Outcome { refusal, words })
}

fn flag(number: u32) -> Result<bool, Fault> {
    match number {
        0 => Ok(false),
        1 => Ok(true),
        _ => Err(Fault::NoInput),
    }
}

// The axis of a number.
fn axis(number: u32) -> Result<Axis, Fault> {
    match number {
        0 => Ok(Axis::X),
        1 => Ok(Axis::Y),
        2 => Ok(Axis::Z),
        _ => Err(Fault::NoInput),
    }
}

// What came of a call that makes a signed axis: its axis and its sign.
fn made(answer: Result<SignedAxis, Refusal>) -> Outcome<2> {
    match answer {
        Err(refusal) => Outcome {
            refusal: u32::from(refusal.reason),
            words: [BEFORE; 2],
        },
        Ok(made) => Outcome {
            refusal: 0,
            words: [
                made.unsigned_axis().index() as u32,
                made.signum().cast_unsigned(),
            ],
        },
    }
}

pub fn new<R: Print>(tally: &mut Tally<'_, R>, record: Record<'_>) -> Result<(), Error> {
    let call = Call::<2, 2>::read(record)?;
    let [sign, number] = call.input;
    let answer = SignedAxis::new(sign.cast_signed(), axis(number)?);
    call.compare(tally, made(answer))
}

pub fn from_vector<R: Print>(tally: &mut Tally<'_, R>, record: Record<'_>) -> Result<(), Error> {
    let call = Call::<3, 2>::read(record)?;
    let [x, y, z] = call.input.map(u32::cast_signed);
    let answer = SignedAxis::from_vector(IVec3 { x, y, z });
    call.compare(tally, made(answer))
}

// The signed axis of a sign, 1 or -1, and an axis' number.
fn signed_axis(sign: i32, number: u32) -> Result<SignedAxis, Fault> {
    if sign != 1 && sign != -1 {
        return Err(Fault::NoInput);
    }
    SignedAxis::new(sign, axis(number)?).map_err(|_| Fault::NoInput)
}

pub fn canonical<R: Print>(tally: &mut Tally<'_, R>, record: Record<'_>) -> Result<(), Error> {
    let call = Call::<2, 2>::read(record)?;
    let [sign, number] = call.input;
    let face = OrientedBlockFace::canonical(signed_axis(sign.cast_signed(), number)?);
    let words = [face.n_sign.cast_unsigned(), u32::from(face.permutation)];
    call.compare(tally, Outcome { refusal: 0, words })
}
