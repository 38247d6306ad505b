// Where in a file a refusal of its reader stands. Each function answers what is left of the file from
// there on, which is nothing where it has no such byte.
ghost use Rattle.std.specs.Prelude.{◌≡◌, ◌*◌, drop};
ghost use Rattle.saved.specs.Read.{after_section};
ghost use Rattle.saved.specs.Where as spec;
ghost use Rattle.saved.specs.Where.{from_section, from_face, from_quad, from_refusal};
ghost use Rattle.saved.specs.Private.{form_of};

use crate::form::SavedForm;
use crate::number;
use geometry::refusal::Reason;

// The numbers of what a file is refused for.
const FILE: u32 = Reason::File as u32;

const NO_SUCH_NUMBER: u32 = Reason::NoSuchNumber as u32;

const QUAD_LIMITS: u32 = Reason::QuadLimits as u32;

// How many sections of quads there are.
const SECTIONS: usize = 6;

// What is left after so many bytes.
fn past(bytes: &[u8], n: usize) -> &[u8]
    ensures { result.now ≡ drop n bytes.now }
{
    &bytes[n.min(bytes.len())..]
}

// What is left after so many records.
fn within(bytes: &[u8], size: usize, records: usize) -> &[u8]
    ensures { result.now ≡ drop (records * size) bytes.now }
{
    past(bytes, records.saturating_mul(size))
}

// What is left after a section.
fn after(bytes: &[u8], size: usize) -> &[u8]
    ensures { result.now ≡ after_section size bytes.now }
{
    if bytes.len() < 4 {
        return &[];
    }
    let count = number::get(bytes) as usize;
    within(&bytes[4..], size, count)
}

// From where a section begins, or from the first byte past section 6.
fn section(form: SavedForm, bytes: &[u8], section: u64) -> &[u8]
    ensures { result.now ≡ from_section form.numbers section bytes.now }
{
    if section == 0 {
        return bytes;
    }
    let size = form.quad_size();
    let mut rest = after(bytes, 1);
    for _ in 1..section.min(7) {
        rest = after(rest, size);
    }
    rest
}

// From a face byte.
fn face(bytes: &[u8], face: u64) -> &[u8]
    ensures { result.now ≡ from_face face bytes.now }
{
    past(past(bytes, 4), face as usize)
}

// From where a quad begins.
fn quad(form: SavedForm, bytes: &[u8], quad: u64) -> &[u8]
    ensures { result.now ≡ from_quad form.numbers quad bytes.now }
{
    let size = form.quad_size();
    let mut rest = after(bytes, 1);
    let mut left = quad;
    for _ in 0..SECTIONS {
        if rest.len() < 4 {
            return &[];
        }
        let count = number::get(rest) as u64;
        if left < count {
            return within(&rest[4..], size, left as usize);
        }
        left -= count;
        rest = after(rest, size);
    }
    rest
}

// From where a refusal stands.
fn standing(form: SavedForm, bytes: &[u8], number: u32, place: u64) -> &[u8]
    ensures { result.now ≡ from_refusal form.numbers number place bytes.now }
{
    match number {
        FILE => section(form, bytes, place),
        NO_SUCH_NUMBER => face(bytes, place),
        QUAD_LIMITS => quad(form, bytes, place),
        _ => bytes,
    }
}

// The byte where a refusal stands.
pub(crate) fn byte(form: SavedForm, bytes: &[u8], number: u32, place: u64) -> u64
    ensures { result ≡ spec.refusal_byte (form_of form) number place bytes.now }
{
    let left = standing(form, bytes, number, place);
    (bytes.len() - left.len()) as u64
}
