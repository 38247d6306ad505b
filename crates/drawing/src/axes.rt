// Axes, permutations, signed axes and canonical faces. An axis that comes out goes by its unit vector.
use crate::given::Given;
use crate::show;
use geometry::axis::{Axis, AxisPermutation, SignedAxis};
use geometry::face::OrientedBlockFace;
use geometry::vector::IVec3;
use std::io::{self, Write};

// An axis' unit vector.
fn unit(out: &mut impl Write, a: Axis) -> io::Result<()> {
    show::point(out, a.get_unit_vector())
}

// A permutation's n, u and v, its sign and its number, and of its n the index and the even and the odd
// permutation.
fn named<W: Write>(out: &mut W, p: AxisPermutation) -> io::Result<()> {
    let axes = p.axes();
    unit(out, axes.n)?;
    unit(out, axes.u)?;
    unit(out, axes.v)?;
    show::sign(out, p.sign())?;
    show::number(out, u32::from(p))?;
    show::number(out, axes.n.index())?;
    let even = AxisPermutation::even_with_normal_axis(axes.n);
    let odd = AxisPermutation::odd_with_normal_axis(axes.n);
    show::number(out, u32::from(even))?;
    show::number(out, u32::from(odd))
}

// A permutation's number.
pub fn order<W: Write>(out: &mut W, given: &mut Given<'_>) -> io::Result<()> {
    show::came(out, AxisPermutation::try_from(given.number()), named)
}

// A signed axis: its sign, its axis, its unit vector and its canonical face.
fn signed_axis<W: Write>(out: &mut W, a: SignedAxis) -> io::Result<()> {
    show::sign(out, a.signum())?;
    unit(out, a.unsigned_axis())?;
    show::direction(out, a.get_unit_vector())?;
    show::face(out, OrientedBlockFace::canonical(a))
}

// A sign and an axis' index, as a signed axis.
pub fn sign<W: Write>(out: &mut W, given: &mut Given<'_>) -> io::Result<()> {
    let sign = given.signed();
    let made = SignedAxis::new(sign, given.axis());
    show::came(out, made, signed_axis)
}

// The three numbers of a vector, as a signed axis.
pub fn direction<W: Write>(out: &mut W, given: &mut Given<'_>) -> io::Result<()> {
    let x = given.signed();
    let y = given.signed();
    let z = given.signed();
    show::came(out, SignedAxis::from_vector(IVec3 { x, y, z }), signed_axis)
}
