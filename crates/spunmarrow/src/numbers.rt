// What the numbers of a call stand for: permutations, corners, axes, points, quads and faces.
ghost use Rattle.std.specs.Prelude.{◌≡◌, ◌<◌};
ghost use Rattle.geometry.specs.Refusal.{answer, checked};
ghost use Rattle.geometry.specs.Answers.{meaning};
ghost use Rattle.spunmarrow.specs.Numbers.{point_of, quad_of, face_of, corner_of, axis_of};
ghost use Rattle.spunmarrow.specs.Faces.{signed_permutation, face_at, bad_numbers, faces_of};

use geometry::axis::{Axis, AxisPermutation};
use geometry::face::{Corner, OrientedBlockFace};
use geometry::quad::UnorientedQuad;
use geometry::refusal::{Reason, Refusal};
use geometry::vector::UVec3;

// The point of three numbers.
// No From: the pattern is one line, and says which number is which.
pub(crate) fn point(numbers: &[u32; 3]) -> UVec3
    ensures { result ≡ point_of numbers.now }
{
    let [x, y, z] = *numbers;
    UVec3 { x, y, z }
}

// The quad of five numbers.
pub(crate) fn quad(numbers: &[u32; 5]) -> UnorientedQuad
    ensures { result ≡ quad_of numbers.now }
{
    let [x, y, z, width, height] = *numbers;
    UnorientedQuad {
        minimum: UVec3 { x, y, z },
        width,
        height,
    }
}

// The face of a sign and a permutation's number. Refuses any number but 0 to 5.
pub(crate) fn face(sign: i32, permutation: u32) -> Result<OrientedBlockFace, Refusal>
    ensures { meaning result ≡ face_of sign permutation }
{
    let permutation = AxisPermutation::try_from(permutation)?;
    Ok(OrientedBlockFace {
        n_sign: sign,
        permutation,
    })
}

// The corner of a number. Refuses any number but 0 to 3.
pub(crate) fn corner(number: u32) -> Result<Corner, Refusal>
    ensures { meaning result ≡ corner_of number }
{
    match number {
        0 => Ok(Corner::MinuMinv),
        1 => Ok(Corner::MaxuMinv),
        2 => Ok(Corner::MinuMaxv),
        3 => Ok(Corner::MaxuMaxv),
        _ => Err(Reason::NoSuchNumber.at(0)),
    }
}

// The axis of a number. Refuses any number but 0 to 2.
pub(crate) fn axis(number: u32) -> Result<Axis, Refusal>
    ensures { meaning result ≡ axis_of number }
{
    match number {
        0 => Ok(Axis::X),
        1 => Ok(Axis::Y),
        2 => Ok(Axis::Z),
        _ => Err(Reason::NoSuchNumber.at(0)),
    }
}

// The permutation of a signed number. Refuses any number but 0 to 5.
fn permutation(number: i32) -> Result<AxisPermutation, Refusal>
    ensures { meaning result ≡ signed_permutation number }
{
    if number < 0 {
        return Err(Reason::NoSuchNumber.at(0));
    }
    AxisPermutation::try_from(number as u32)
}

// The check of six faces: the first whose permutation's number is none is refused, with its place.
pub(crate) fn check_faces(numbers: &[i32; 12]) -> Result<(), Refusal>
    ensures { meaning result ≡ checked (bad_numbers numbers.now) }
{
    for k in 0..6 {
        if let Err(refusal) = permutation(numbers[k * 2 + 1]) {
            return Err(refusal.reason.at(k as u64));
        }
    }
    Ok(())
}

// One of the six faces. Where its permutation's number is none, which `check_faces` tells, any will
// do.
fn face_at(numbers: &[i32; 12], k: usize) -> OrientedBlockFace
    requires { k < 6 }
    ensures { result ≡ face_at numbers.now k }
{
    OrientedBlockFace {
        n_sign: numbers[k * 2],
        permutation: permutation(numbers[k * 2 + 1]).unwrap_or(AxisPermutation::Xyz),
    }
}

// The six faces.
pub(crate) fn faces(numbers: &[i32; 12]) -> [OrientedBlockFace; 6]
    ensures { result ≡ faces_of numbers.now }
{
    [
        face_at(numbers, 0),
        face_at(numbers, 1),
        face_at(numbers, 2),
        face_at(numbers, 3),
        face_at(numbers, 4),
        face_at(numbers, 5),
    ]
}
