// Reading a saved mesh from standard input.
ghost use Rattle.std.specs.Prelude.{◌≤◌, length, IfOk};

use crate::refused::Refused;
use crate::say::{Failure, Wrong};
use crate::space;
use geometry::face::OrientedBlockFace;
use saved::SavedMesh;
use std::io::{self, Read};

// The most bytes that this command takes: those of a file of 131,072 quads.
const MOST_BYTES: usize = 2621474;

// What a file holds.
#[derive(Clone, Copy)]
pub struct File<'a> {
    pub bytes: usize,
    pub faces: [OrientedBlockFace; 6],
    pub counts: [u64; 6],
    pub quads: &'a [u32],
}

// Reads until the bytes are full or the input ends, and answers how many it put at their start.
fn read_full(input: &mut impl Read, bytes: &mut [u8]) -> io::Result<usize>
    ensures { IfOk result (λ n. n ≤ length bytes.new) }
{
    // Not by `read_to_end`, which needs the heap: saved_file allocates nothing (docs/DECISIONS.md 73).
    let mut done: usize = 0;
    while done < bytes.len() {
        let n = input.read(&mut bytes[done..])?;
        if n == 0 {
            return Ok(done);
        }
        done += n;
    }
    Ok(done)
}

// Reads a file, its quads into what is lent for them.
pub fn read<'a>(rt: &impl Input, quads: &'a mut [u32]) -> Result<File<'a>, Failure> {
    let mut room = space::bytes();
    let bytes: &mut [u8] = &mut room;
    let got = read_full(&mut rt.reader(), bytes)?;
    if got > MOST_BYTES {
        return Err(Wrong::LongFile.into());
    }
    let bytes = &bytes[..got];
    let SavedMesh { faces, counts } = saved::read_saved(bytes, quads).map_err(
        |refusal| Refused::new(refusal, bytes),
    )?;
    Ok(File {
        bytes: got,
        faces,
        counts,
        quads,
    })
}
