// What is printed of a meshed block.
use arrayvec::ArrayVec;
use geometry::axis::SignedAxis;
use std::io::{self, Write};

// The faces of a cube, in the order in which they are meshed.
pub const FACES: [SignedAxis; 6] = [
    SignedAxis::PosX,
    SignedAxis::NegX,
    SignedAxis::PosY,
    SignedAxis::NegY,
    SignedAxis::PosZ,
    SignedAxis::NegZ,
];

fn name(face: SignedAxis) -> &'static str {
    match face {
        SignedAxis::PosX => "+X",
        SignedAxis::NegX => "-X",
        SignedAxis::PosY => "+Y",
        SignedAxis::NegY => "-Y",
        SignedAxis::PosZ => "+Z",
        SignedAxis::NegZ => "-Z",
    }
}

// How many bytes of lines are printed at once.
const LOT: usize = 8192;

// Gathers what is printed, and prints it in lots. It holds the lot itself, where a BufWriter would need the
// heap: mesh allocates nothing (docs/DECISIONS.md 47).
#[derive(Drop)]
struct Lots<'a, P, const N: usize> {
    to: &'a P,
    lot: ArrayVec<u8, N>,
}

impl<P: Print, const N: usize> Write for Lots<'_, P, N> {
    fn write(&mut self, bytes: &[u8]) -> io::Result<usize> {
        self.write_all(bytes)?;
        Ok(bytes.len())
    }

    fn flush(&mut self) -> io::Result<()> {
        self.to.write_all(self.lot.as_slice())?;
        self.lot.clear();
        Ok(())
    }

    fn write_all(&mut self, bytes: &[u8]) -> io::Result<()> {
        if self.lot.try_extend_from_slice(bytes).is_ok() {
            return Ok(());
        }
        self.flush()?;
        if self.lot.try_extend_from_slice(bytes).is_ok() {
            return Ok(());
        }
        // It is longer than a lot.
        self.to.write_all(bytes)
    }
}

// Prints a line for each quad, its face and its numbers, and a last one with how many each face has and
// the tests, where there were any.
pub fn mesh<R: Print, const N: usize>(
    rt: &R,
    quads: &[[u32; N]],
    counts: [u64; 6],
    tests: Option<u64>,
) -> io::Result<()> {
    let mut out = Lots {
        to: rt,
        lot: ArrayVec::<u8, LOT>::new(),
    };
    let mut left = quads.iter();
    for (face, count) in FACES.iter().zip(counts) {
        for quad in left.by_ref().take(count as usize) {
            write!(out, "{}", name(*face))?;
            for n in quad {
                write!(out, " {n}")?;
            }
            writeln!(out)?;
        }
    }
    write!(out, "quads")?;
    for count in counts {
        write!(out, " {count}")?;
    }
    if let Some(tests) = tests {
        write!(out, " tests {tests}")?;
    }
    writeln!(out)?;
    out.flush()
}
