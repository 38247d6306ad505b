// Meshes that are handed in: six faces, six counts, and a lent list with the groups end to end, each
// quad so many numbers. They are checked by 24, 6, 12 and 13, in this order, for every writer. What
// lies behind the last quad that is counted is never read.
ghost use Rattle.std.specs.Prelude.{◌≡◌, ◌≤◌, ◌+◌, ◌*◌, length, get_or};
ghost use Rattle.geometry.specs.Refusal.{answer, checked};
ghost use Rattle.geometry.specs.Answers.{meaning};
ghost use Rattle.greedy.specs.Call.{quad_from};
ghost use Rattle.listing.specs.Listing.{capacity};
ghost use Rattle.writing.specs.Handed.{total, past_list, bad_quad_at, bad_quads, handed, handed_checks, listed_checks, five_checks};
ghost use Rattle.writing.specs.Left.{group_left};

use geometry::face::OrientedBlockFace;
use geometry::quad::UnorientedQuad;
use geometry::refusal::{Reason, Refusal};
use geometry::vector::UVec3;
use greedy::QUAD_NUMBERS;
use voxels::bounds;

// The most quads whose vertices, counted from 1, have numbers below 2 to the 32nd.
pub const MOST_QUADS: u64 = 1073741823;

// How many numbers a quad of geometry is handed in as.
const FIVE: usize = 5;

// How many quads six counts claim, of a list with room for so many. Refuses by 24. The counts are taken
// off the room one after another, and never added to each other.
fn count_quads(counts: [u64; 6], room: u64) -> Result<u64, Refusal>
    ensures { meaning result ≡ answer (past_list room counts) (total counts) }
{
    let mut left = room;
    for count in &counts {
        if left < *count {
            return Err(Reason::Counts.at(0));
        }
        left -= *count;
    }
    Ok(room - left)
}

// The k-th of some numbers, and 0 where there are fewer.
fn number(numbers: &[u32], k: usize) -> u32
    ensures { result ≡ get_or numbers.now k 0 }
{
    numbers.get(k).copied().unwrap_or(0)
}

// The quad of some numbers: minimum x, y, z, width and height. What is missing is 0.
pub fn quad_from(numbers: &[u32]) -> UnorientedQuad
    ensures { result ≡ quad_from numbers.now }
{
    let x = number(numbers, 0);
    let y = number(numbers, 1);
    let z = number(numbers, 2);
    let width = number(numbers, 3);
    let height = number(numbers, 4);
    let minimum = UVec3 { x, y, z };
    UnorientedQuad {
        minimum,
        width,
        height,
    }
}

// Check 12 of one group: so many quads on a face, after so many of the groups before.
fn check_group(
    face: OrientedBlockFace,
    quads: &[u32],
    numbers: usize,
    first: usize,
    count: usize,
) -> Result<(), Refusal>
    requires le_numbers { 5 ≤ numbers }
    requires count_bound { first + count ≤ capacity numbers (length quads.now) }
    ensures { meaning result ≡ checked (group_left bad_quad_at numbers quads.now face first (first * numbers) count) }
{
    let mut at = first * numbers;
    for k in 0..count {
        let end = at + FIVE;
        let quad = quad_from(&quads[at..end]);
        if let Err(refusal) = face.check_quad(quad) {
            let number = first + k;
            return Err(refusal.reason.at(number as u64));
        }
        at += numbers;
    }
    Ok(())
}

// Check 12 of all groups.
fn check_groups(
    faces: [OrientedBlockFace; 6],
    counts: [u64; 6],
    quads: &[u32],
    numbers: usize,
) -> Result<(), Refusal>
    requires le_numbers { 5 ≤ numbers }
    requires counts_bound { total counts ≤ capacity numbers (length quads.now) }
    ensures { meaning result ≡ checked (bad_quads (handed numbers faces counts quads.now)) }
{
    let mut first: usize = 0;
    for (k, face) in faces.iter().enumerate() {
        let count = counts[k] as usize;
        check_group(*face, quads, numbers, first, count)?;
        first += count;
    }
    Ok(())
}

// The checks of a list with so many numbers a quad, in their order.
fn check(
    faces: [OrientedBlockFace; 6],
    counts: [u64; 6],
    quads: &[u32],
    numbers: usize,
) -> Result<u64, Refusal>
    requires { 5 ≤ numbers }
    ensures { meaning result ≡ answer (handed_checks numbers faces counts quads.now) (total counts) }
{
    let room = quads.len() / numbers;
    let all = count_quads(counts, room as u64)?;
    bounds::check_faces(faces)?;
    check_groups(faces, counts, quads, numbers)?;
    if MOST_QUADS < all {
        return Err(Reason::ManyVertices.at(0));
    }
    Ok(all)
}

// The checks of a list as greedy meshing writes it: how many quads it has, or the first refusal of 24,
// 6, 12 and 13.
pub fn check_listed(
    faces: [OrientedBlockFace; 6],
    counts: [u64; 6],
    quads: &[u32],
) -> Result<u64, Refusal>
    ensures { meaning result ≡ answer (listed_checks faces counts quads.now) (total counts) }
{
    check(faces, counts, quads, QUAD_NUMBERS)
}

// The same of a list of quads of five numbers, whatever greedy meshing writes.
pub fn check_five(
    faces: [OrientedBlockFace; 6],
    counts: [u64; 6],
    quads: &[u32],
) -> Result<u64, Refusal>
    ensures { meaning result ≡ answer (five_checks faces counts quads.now) (total counts) }
{
    check(faces, counts, quads, FIVE)
}
