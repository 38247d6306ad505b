// Decimal numbers, written into lent bytes: what a text writer spells its numbers with.
#![tactic(auto)]

mod lots;

ghost use Rattle.std.specs.Prelude.{◌≡◌, length};
ghost use Rattle.digits.specs.Decimal.{digits, part, spelt, spelling};

// How many digits a number has. Small numbers are the usual ones, and are told first. With a `match` of
// ranges, which is tested from its middle, a mesh of small ones is measured (bench/run, sphere, one byte
// short) by 7 % more instructions, and with `checked_ilog10` by 26 % more.
pub fn places(n: u32) -> usize
    ensures { result ≡ length (digits n) }
{
    if n < 10 {
        return 1;
    }
    if n < 100 {
        return 2;
    }
    if n < 1000 {
        return 3;
    }
    if n < 10000 {
        return 4;
    }
    if n < 100000 {
        return 5;
    }
    if n < 1000000 {
        return 6;
    }
    if n < 10000000 {
        return 7;
    }
    if n < 100000000 {
        return 8;
    }
    if n < 1000000000 {
        return 9;
    }
    10
}

// What `spell` does, in bytes that may be too few: the digits are counted, and then written from the
// last to the first.
fn tight(n: u32, out: &mut [u8]) -> usize
    ensures { spelt result out.new ≡ spelling n out.old }
{
    let count = places(n);
    if out.len() < count {
        return 0;
    }
    let mut rest = n;
    for at in (0..count).rev() {
        out[at] = b'0' + (rest % 10) as u8;
        rest /= 10;
    }
    count
}

// Writes a number's digits at the start of the scratch and answers how many there are. Where they do
// not fit it answers 0, and the scratch is as it was. Any number fits into ten bytes, and there nothing
// is counted first; small numbers are told first again.
// 0 and no Option: it is the answer of spunmarrow_decimal, and no number has 0 digits.
#[tactic(auto, using(crate::proofs::InLots::spelled_set))]
pub fn spell(n: u32, scratch: &mut [u8]) -> usize
    ensures { spelt result scratch.new ≡ spelling n scratch.old }
{
    if scratch.len() < 10 {
        return tight(n, scratch);
    }
    if n < 100 {
        return lots::few(n, scratch);
    }
    if n < 10000 {
        return lots::short(n, scratch);
    }
    if n < 100000000 {
        return lots::long(n, scratch);
    }
    lots::longest(n, scratch)
}

// The same, and hands back the written part, which starts where the scratch does: an empty one where
// the digits do not fit. What the rest of the scratch holds cannot be said of a part: `spell` says it.
pub fn decimal(n: u32, scratch: &mut [u8]) -> &mut [u8]
    ensures result_value { result.now ≡ part n scratch.old }
    ensures ref_ptr_value { result.ref_ptr ≡ scratch.entry.ref_ptr }
{
    let count = spell(n, scratch);
    &mut scratch[..count]
}
