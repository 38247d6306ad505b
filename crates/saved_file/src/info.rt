// What is printed of a file.
use crate::facts::Facts;
use crate::load::File;
use geometry::axis::AxisPermutation;
use geometry::face::OrientedBlockFace;
use saved::QUAD_NUMBERS;
use std::io;
use writing::handed;

fn sign(face: OrientedBlockFace) -> char {
    if face.n_sign == 1 { '+' } else { '-' }
}

fn name(permutation: AxisPermutation) -> &'static str {
    match permutation {
        AxisPermutation::Xyz => "Xyz",
        AxisPermutation::Zxy => "Zxy",
        AxisPermutation::Yzx => "Yzx",
        AxisPermutation::Zyx => "Zyx",
        AxisPermutation::Xzy => "Xzy",
        AxisPermutation::Yxz => "Yxz",
    }
}

// Prints what a file holds: a line for each face, and one of all of them.
pub fn print(rt: &impl Print, file: &File) -> io::Result<()> {
    println!(rt; "form 1 bytes {}", file.bytes)?;
    let mut quads = file.quads.as_chunks::<QUAD_NUMBERS>().0.iter();
    let mut all = Facts::default();
    for (face, count) in file.faces.iter().zip(file.counts) {
        let group = quads
            .by_ref()
            .take(count as usize)
            .map(|quad| Facts::of(*face, handed::quad_from(quad)))
            .fold(Facts::default(), Facts::join);
        println!(rt; "{}{} {group}", sign(*face), name(face.permutation))?;
        all = all.join(group);
    }
    println!(rt; "all {all}")
}
