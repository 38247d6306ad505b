// How a mesher lists what it makes into a lent buffer, and what it answers, after buffer.rs. The Rust
// appends to vectors that grow; here groups of items lie end to end in one lent output, each item so
// many numbers, and what does not fit is counted and not written.
#![tactic(auto)]

ghost use Rattle.std.specs.Prelude.{◌≡◌};
ghost use Rattle.geometry.specs.Refusal.{answer};
ghost use Rattle.geometry.specs.Answers.{meaning};
ghost use Rattle.listing.specs.Listing.{too_many};
ghost use Rattle.listing.specs.Pushed.{put};

use geometry::refusal::{Reason, Refusal};

// The answer of a call that listed so many items: how many each of its six groups has, or 9 where there
// are more than the output holds.
pub fn answered(listed: usize, capacity: usize, counts: [u64; 6]) -> Result<[u64; 6], Refusal>
    ensures { meaning result ≡ answer (too_many listed capacity) counts }
{
    if capacity < listed {
        return Err(Reason::ManyQuads.at(capacity as u64));
    }
    Ok(counts)
}

// Lists an item after so many of as many numbers: it is written where there is room for all of it. How many
// are listed is counted past what fits, so that the length of no slice or Vec can stand for it.
pub fn push(out: &mut [u32], listed: usize, item: &[u32])
    ensures { out.new ≡ put out.old listed item.now }
{
    let numbers = item.len();
    if numbers == 0 {
        return;
    }
    if out.len() / numbers <= listed {
        return;
    }
    let start = listed * numbers;
    let end = start + numbers;
    out[start..end].copy_from_slice(item);
}
