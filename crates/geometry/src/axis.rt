// Axes, permutations and signed axes, after geometry/axis.rs.
ghost use Rattle.std.specs.Prelude.{◌≡◌};
ghost use Rattle.geometry.specs.Axes.{even_with_normal_axis, odd_with_normal_axis, permutation_sign, axes_of, permutation_number, permutation_of, signum, unsigned_axis, signed_unit, toward, signed_axis_of_sign, signed_axis_of_vector};
ghost use Rattle.geometry.specs.Point.{axis_number, unit_vector, along};
ghost use Rattle.geometry.specs.Answers.{meaning};

use crate::refusal::{Reason, Refusal};
use crate::vector::{IVec3, UVec3};

// One of the three axes.
#[derive(Clone, Copy, PartialEq, Eq)]
pub enum Axis {
    X,
    Y,
    Z,
}

impl Axis {
    // The axis' number: 0, 1 or 2.
    pub fn index(self) -> usize
        ensures { result ≡ axis_number self }
    {
        self as usize
    }

    // One step along this axis.
    pub fn get_unit_vector(self) -> UVec3
        ensures { result ≡ unit_vector self }
    {
        match self {
            Axis::X => UVec3 { x: 1, y: 0, z: 0 },
            Axis::Y => UVec3 { x: 0, y: 1, z: 0 },
            Axis::Z => UVec3 { x: 0, y: 0, z: 1 },
        }
    }

    // A point's coordinate on this axis.
    pub fn coordinate(self, p: UVec3) -> u32
        ensures { result ≡ along self p }
    {
        match self {
            Axis::X => p.x,
            Axis::Y => p.y,
            Axis::Z => p.z,
        }
    }
}

// Which axes a face calls n, u and v: the name has them in that order.
#[derive(Clone, Copy)]
pub enum AxisPermutation {
    // Even, of sign 1.
    Xyz,
    Zxy,
    Yzx,
    // Odd, of sign -1.
    Zyx,
    Xzy,
    Yxz,
}

// The three axes in the order that a permutation names.
#[derive(Clone, Copy)]
pub struct Axes {
    pub n: Axis,
    pub u: Axis,
    pub v: Axis,
}

impl AxisPermutation {
    // The even permutation whose n is the axis.
    pub fn even_with_normal_axis(axis: Axis) -> AxisPermutation
        ensures { result ≡ even_with_normal_axis axis }
    {
        match axis {
            Axis::X => AxisPermutation::Xyz,
            Axis::Y => AxisPermutation::Yzx,
            Axis::Z => AxisPermutation::Zxy,
        }
    }

    // The odd permutation whose n is the axis.
    pub fn odd_with_normal_axis(axis: Axis) -> AxisPermutation
        ensures { result ≡ odd_with_normal_axis axis }
    {
        match axis {
            Axis::X => AxisPermutation::Xzy,
            Axis::Y => AxisPermutation::Yxz,
            Axis::Z => AxisPermutation::Zyx,
        }
    }

    // 1 for an even permutation, -1 for an odd one.
    pub fn sign(self) -> i32
        ensures { result ≡ permutation_sign self }
    {
        match self {
            AxisPermutation::Xyz => 1,
            AxisPermutation::Zxy => 1,
            AxisPermutation::Yzx => 1,
            AxisPermutation::Zyx => -1,
            AxisPermutation::Xzy => -1,
            AxisPermutation::Yxz => -1,
        }
    }

    // The three axes that the permutation names.
    pub fn axes(self) -> Axes
        ensures { result ≡ axes_of self }
    {
        match self {
            AxisPermutation::Xyz => Axes {
                n: Axis::X,
                u: Axis::Y,
                v: Axis::Z,
            },
            AxisPermutation::Zxy => Axes {
                n: Axis::Z,
                u: Axis::X,
                v: Axis::Y,
            },
            AxisPermutation::Yzx => Axes {
                n: Axis::Y,
                u: Axis::Z,
                v: Axis::X,
            },
            AxisPermutation::Zyx => Axes {
                n: Axis::Z,
                u: Axis::Y,
                v: Axis::X,
            },
            AxisPermutation::Xzy => Axes {
                n: Axis::X,
                u: Axis::Z,
                v: Axis::Y,
            },
            AxisPermutation::Yxz => Axes {
                n: Axis::Y,
                u: Axis::X,
                v: Axis::Z,
            },
        }
    }
}

// The permutation's number, 0 to 5, in the order of the cases.
impl From<AxisPermutation> for u32 {
    ghost from_gives = { λ permutation number. number ≡ permutation_number permutation };

    fn from(permutation: AxisPermutation) -> u32 {
        permutation as u32
    }
}

// The permutation that has a number. Refuses any number but 0 to 5, by 17.
impl TryFrom<u32> for AxisPermutation {
    type Error = Refusal;

    ghost try_from_gives = { λ number answer. meaning answer ≡ permutation_of number };

    fn try_from(number: u32) -> Result<AxisPermutation, Refusal> {
        match number {
            0 => Ok(AxisPermutation::Xyz),
            1 => Ok(AxisPermutation::Zxy),
            2 => Ok(AxisPermutation::Yzx),
            3 => Ok(AxisPermutation::Zyx),
            4 => Ok(AxisPermutation::Xzy),
            5 => Ok(AxisPermutation::Yxz),
            _ => Err(Reason::NoSuchNumber.at(0)),
        }
    }
}

// An axis with one of its two sides.
#[derive(Clone, Copy)]
pub enum SignedAxis {
    NegX,
    PosX,
    NegY,
    PosY,
    NegZ,
    PosZ,
}

impl SignedAxis {
    // The axis toward the side that a sign tells. Refuses sign 0; any other sign is taken.
    pub fn new(sign: i32, axis: Axis) -> Result<SignedAxis, Refusal>
        ensures { meaning result ≡ signed_axis_of_sign sign axis }
    {
        if sign == 0 {
            return Err(Reason::NoDirection.at(0));
        }
        Ok(SignedAxis::toward(sign > 0, axis))
    }

    // The positive or the negative side of an axis.
    fn toward(positive: bool, axis: Axis) -> SignedAxis
        ensures { result ≡ toward positive axis }
    {
        if positive {
            match axis {
                Axis::X => SignedAxis::PosX,
                Axis::Y => SignedAxis::PosY,
                Axis::Z => SignedAxis::PosZ,
            }
        } else {
            match axis {
                Axis::X => SignedAxis::NegX,
                Axis::Y => SignedAxis::NegY,
                Axis::Z => SignedAxis::NegZ,
            }
        }
    }

    // The axis without its side.
    pub fn unsigned_axis(self) -> Axis
        ensures { result ≡ unsigned_axis self }
    {
        match self {
            SignedAxis::NegX => Axis::X,
            SignedAxis::NegY => Axis::Y,
            SignedAxis::NegZ => Axis::Z,
            SignedAxis::PosX => Axis::X,
            SignedAxis::PosY => Axis::Y,
            SignedAxis::PosZ => Axis::Z,
        }
    }

    // 1 on the positive side, -1 on the negative.
    pub fn signum(self) -> i32
        ensures { result ≡ signum self }
    {
        match self {
            SignedAxis::NegX => -1,
            SignedAxis::NegY => -1,
            SignedAxis::NegZ => -1,
            SignedAxis::PosX => 1,
            SignedAxis::PosY => 1,
            SignedAxis::PosZ => 1,
        }
    }

    // One step toward that side.
    pub fn get_unit_vector(self) -> IVec3
        ensures { result ≡ signed_unit self }
    {
        match self {
            SignedAxis::NegX => IVec3 { x: -1, y: 0, z: 0 },
            SignedAxis::NegY => IVec3 { x: 0, y: -1, z: 0 },
            SignedAxis::NegZ => IVec3 { x: 0, y: 0, z: -1 },
            SignedAxis::PosX => IVec3 { x: 1, y: 0, z: 0 },
            SignedAxis::PosY => IVec3 { x: 0, y: 1, z: 0 },
            SignedAxis::PosZ => IVec3 { x: 0, y: 0, z: 1 },
        }
    }

    // The axis along which a vector lies, toward the side of its one nonzero part. Refuses the zero
    // vector, and one with two or more nonzero parts.
    pub fn from_vector(v: IVec3) -> Result<SignedAxis, Refusal>
        ensures { meaning result ≡ signed_axis_of_vector v }
    {
        match (v.x, v.y, v.z) {
            (x, 0, 0) => SignedAxis::new(x, Axis::X),
            (0, y, 0) => SignedAxis::new(y, Axis::Y),
            (0, 0, z) => SignedAxis::new(z, Axis::Z),
            _ => Err(Reason::ManyDirections.at(0)),
        }
    }
}
