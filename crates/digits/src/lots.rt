// Digits two and four at a time, in bytes that have room for them: no loop, and nothing is counted
// first.
ghost use Rattle.std.specs.Prelude.{◌≡◌, ◌+◌, ◌≤◌, ◌<◌, length};
ghost use Rattle.listing.specs.Pushed.{set_all};
ghost use Rattle.digits.specs.Decimal.{digits};
ghost use Rattle.digits.specs.Lots.{two_digits, four_digits};

// The two digits of a number below 100, from a place on, zeros included. Both bytes are made as one
// number, the last digit's 256 times, which the compiler stores at once; below 100 a tenth is 103
// parts of 1,024.
fn two(n: u32, out: &mut [u8], at: usize)
    requires n_bound { n < 100 }
    requires at_in_bounds { at + 2 ≤ length out.old }
    ensures { out.new ≡ set_all out.old at (two_digits n) }
{
    let tens = n * 103 / 1024;
    let pair = 256 * n + 12336 - 2559 * tens;
    out[at] = (pair % 256) as u8;
    let next = at + 1;
    out[next] = (pair / 256) as u8;
}

// The four digits of a number below 10,000, likewise.
fn four(n: u32, out: &mut [u8], at: usize)
    requires n_bound { n < 10000 }
    requires at_in_bounds { at + 4 ≤ length out.old }
    ensures { out.new ≡ set_all out.old at (four_digits n) }
{
    two(n / 100, out, at);
    two(n % 100, out, at + 2);
}

// The digits of a number below 100, from the start on. It answers how many there are.
pub(crate) fn few(n: u32, out: &mut [u8]) -> usize
    requires n_bound { n < 100 }
    requires in_bounds { 2 ≤ length out.old }
    ensures value { result ≡ length (digits n) }
    ensures out_after { out.new ≡ set_all out.old 0 (digits n) }
{
    if n < 10 {
        out[0] = b'0' + n as u8;
        return 1;
    }
    two(n, out, 0);
    2
}

// The same of a number below 10,000.
pub(crate) fn short(n: u32, out: &mut [u8]) -> usize
    requires n_bound { n < 10000 }
    requires in_bounds { 4 ≤ length out.old }
    ensures value { result ≡ length (digits n) }
    ensures out_after { out.new ≡ set_all out.old 0 (digits n) }
{
    if n < 100 {
        return few(n, out);
    }
    if n < 1000 {
        out[0] = b'0' + (n / 100) as u8;
        two(n % 100, out, 1);
        return 3;
    }
    four(n, out, 0);
    4
}

// The same of a number from 10,000 on and below 100,000,000.
pub(crate) fn long(n: u32, out: &mut [u8]) -> usize
    requires le_n { (10000 ≤ n) × (n < 100000000) }
    requires in_bounds { 8 ≤ length out.old }
    ensures value { result ≡ length (digits n) }
    ensures out_after { out.new ≡ set_all out.old 0 (digits n) }
{
    let count = short(n / 10000, out);
    four(n % 10000, out, count);
    count + 4
}

// The same of a number from 100,000,000 on.
pub(crate) fn longest(n: u32, out: &mut [u8]) -> usize
    requires le_n { 100000000 ≤ n }
    requires in_bounds { 10 ≤ length out.old }
    ensures value { result ≡ length (digits n) }
    ensures out_after { out.new ≡ set_all out.old 0 (digits n) }
{
    let high = n / 10000;
    let count = few(high / 10000, out);
    four(high % 10000, out, count);
    let next = count + 4;
    four(n % 10000, out, next);
    next + 4
}
