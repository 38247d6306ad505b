// Face bytes: the permutation's number, and 8 more where the sign is -1.
ghost use Rattle.std.specs.Prelude.{◌≡◌, ◌∷◌, [], map, ◌≤◌, length, get_or, take, drop};
ghost use Rattle.geometry.specs.declared.axis.AxisPermutation.TheVariants.{Xyz};
ghost use Rattle.geometry.specs.Axes.{permutations};
ghost use Rattle.geometry.specs.Refusal.{checked};
ghost use Rattle.geometry.specs.Answers.{meaning};
ghost use Rattle.saved.specs.Form.{face_byte, without_sign, face_of};
ghost use Rattle.saved.specs.Read.{bad_face_byte, bad_face_bytes};

use geometry::axis::AxisPermutation;
use geometry::face::OrientedBlockFace;
use geometry::refusal::Refusal;

// What a byte has for a sign of -1.
const MINUS: u8 = 8;

// The byte of a face.
pub(crate) fn of_face(face: OrientedBlockFace) -> u8
    ensures { result ≡ face_byte face }
{
    let number = u32::from(face.permutation) as u8;
    if face.n_sign == -1 {
        return number + MINUS;
    }
    number
}

// The bytes of six faces.
pub(crate) fn of_faces(faces: [OrientedBlockFace; 6]) -> [u8; 6]
    ensures { result ≡ map face_byte faces }
{
    faces.map(of_face)
}

// The permutation's number in a byte.
fn number(byte: u8) -> u32
    ensures { result ≡ without_sign byte }
{
    if byte < MINUS {
        return byte as u32;
    }
    (byte - MINUS) as u32
}

// The permutation of a byte. Where there is none, which `check` tells, any will do.
fn permutation(byte: u8) -> AxisPermutation
    ensures { result ≡ get_or permutations (without_sign byte) Xyz }
{
    AxisPermutation::try_from(number(byte)).unwrap_or(AxisPermutation::Xyz)
}

// The face of a byte.
fn face(byte: u8) -> OrientedBlockFace
    ensures { result ≡ face_of byte }
{
    let found = permutation(byte);
    if byte < MINUS {
        return OrientedBlockFace {
            n_sign: 1,
            permutation: found,
        };
    }
    OrientedBlockFace {
        n_sign: -1,
        permutation: found,
    }
}

// The check of one byte.
fn check_byte(byte: u8) -> Result<(), Refusal>
    ensures { meaning result ≡ checked (bad_face_byte byte ∷ []) }
{
    AxisPermutation::try_from(number(byte))?;
    Ok(())
}

// The check of a file's six face bytes: the first outside the code is refused, with its number.
pub(crate) fn check(bytes: &[u8]) -> Result<(), Refusal>
    requires { 10 ≤ length bytes.now }
    ensures { meaning result ≡ checked (bad_face_bytes (take 6 (drop 4 bytes.now))) }
{
    for (k, byte) in bytes[4..10].iter().enumerate() {
        if let Err(refusal) = check_byte(*byte) {
            return Err(refusal.reason.at(k as u64));
        }
    }
    Ok(())
}

// The six faces of a file.
pub(crate) fn faces(bytes: &[u8]) -> [OrientedBlockFace; 6]
    requires { 10 ≤ length bytes.now }
    ensures { result ≡ map face_of (take 6 (drop 4 bytes.now)) }
{
    [bytes[4], bytes[5], bytes[6], bytes[7], bytes[8], bytes[9]].map(face)
}
