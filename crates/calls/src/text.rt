// Parts of a text.
ghost use Rattle.std.specs.Prelude.{◌≡◌, ◌==◌, drop, position};
ghost use Rattle.calls.specs.Lines.{before, after};

// The place of the first byte of a kind. In a loop of its own nothing is carried along but the place.
#[inline(never)]
fn place(text: &[u8], stop: u8) -> Option<usize>
    ensures { result ≡ position (λ b. b == stop) text.now }
{
    text.iter().position(|b| *b == stop)
}

// What stands before the first byte of a kind, and past it: all and nothing where there is none.
pub fn cut(text: &[u8], stop: u8) -> (&[u8], &[u8])
    ensures before { result.0.now ≡ before stop text.now }
    ensures after { result.1.now ≡ after stop text.now }
{
    match place(text, stop) {
        Some(at) => (&text[..at], &text[at + 1..]),
        None => (text, &[]),
    }
}

// What stands past the first bytes, of which there are so many: nothing where there are fewer.
pub fn past(text: &[u8], count: usize) -> &[u8]
    ensures { result.now ≡ drop count text.now }
{
    text.get(count..).unwrap_or(&[])
}
