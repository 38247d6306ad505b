// Reading a block of voxels from standard input.
ghost use Rattle.std.specs.Prelude.{◌≤◌, length, IfOk};

use crate::say::{Failure, Wrong};
use crate::space;
use geometry::vector::UVec3;
use std::io::{self, Read};
use voxels::bounds;

// The most voxels that this command takes.
const MOST_VOXELS: u32 = 262144;

// How many voxels a block of such a shape has.
fn size(shape: UVec3) -> Result<usize, Wrong>
    ensures { IfOk result (λ n. n ≤ MOST_VOXELS) }
{
    bounds::check_shape(shape)?;
    let size = shape.x.saturating_mul(shape.y).saturating_mul(shape.z);
    if size > MOST_VOXELS {
        return Err(Wrong::Large(size));
    }
    Ok(size as usize)
}

// Reads until the bytes are full or the input ends, and answers how many it put at their start.
fn read_full<R: Read>(input: &mut R, bytes: &mut [u8]) -> io::Result<usize>
    ensures { IfOk result (λ n. n ≤ length bytes.new) }
{
    // Not by `read_to_end`, which needs the heap: mesh allocates nothing (docs/DECISIONS.md 47).
    let mut got = 0;
    while got < bytes.len() {
        let n = input.read(&mut bytes[got..])?;
        if n == 0 {
            break;
        }
        got += n;
    }
    Ok(got)
}

// Takes voxels from bytes, as many as there are in both.
fn decode(bytes: &[u8], voxels: &mut [u16]) {
    let (pairs, _) = bytes.as_chunks::<2>();
    for (voxel, pair) in voxels.iter_mut().zip(pairs) {
        *voxel = u16::from_le_bytes(*pair);
    }
}

// Reads the voxels of a block of such a shape, two bytes each, and nothing more is there to read.
// Answers the part of the room that they fill.
pub fn read<'a, R: Input>(rt: &R, shape: UVec3, room: &'a mut [u16]) -> Result<&'a [u16], Failure>
    requires { 262144 ≤ length room.old }
    ensures { IfOk result (λ voxels. length voxels.now ≤ 262144) }
{
    let size = size(shape)?;
    let wanted = size * 2;
    let mut bytes = space::bytes();
    let got = read_full(&mut rt.reader(), &mut bytes[..wanted + 1])?;
    if got < wanted {
        return Err(Wrong::Short { wanted, got }.into());
    }
    if got > wanted {
        return Err(Wrong::Long(wanted).into());
    }
    decode(&bytes, &mut room[..size]);
    Ok(&room[..size])
}
