// A form of such files: what differs between one and another.
ghost use Rattle.std.specs.Prelude.{◌≡◌, ◌+◌, length};
ghost use Rattle.saved.specs.Form.{FormFits, quad_size};

use crate::number;

// How many numbers a quad has, and which bytes stand after the face bytes.
#[derive(Clone, Copy)]
pub(crate) struct SavedForm {
    pub(crate) numbers: usize,
    pub(crate) mark: &'static [u8],
    ghost fits: { FormFits numbers mark.now },
}

impl SavedForm {
    // How many bytes a quad has.
    pub(crate) fn quad_size(self) -> usize
        ensures { result ≡ quad_size self.numbers }
    {
        self.numbers * number::BYTES
    }
    // Where the sections of quads begin: after section 0's count, its face bytes and the mark.
    pub(crate) fn first_quads(self) -> usize
        ensures { result ≡ 10 + length self.mark.now }
    {
        10 + self.mark.len()
    }
}
