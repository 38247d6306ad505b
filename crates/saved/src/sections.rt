// A file's sections: "sections in a fixed order, each after its count". Which of them ends early, and
// whether bytes follow the last.
ghost use Rattle.std.specs.Prelude.{◌≡◌, true, false, MatchOption, ◌||◌};
ghost use Rattle.geometry.specs.Refusal.{checked};
ghost use Rattle.geometry.specs.Answers.{meaning};
ghost use Rattle.saved.specs.Read.{count_in, records_in, after_section, ends_early, wrong_head, section_checks, file_checks};
ghost use Rattle.saved.specs.Private.{form_of};

use crate::form::SavedForm;
use crate::number;
use geometry::refusal::{Reason, Refusal};

// What follows a section whose records have so many bytes each, or none where it ends early.
fn after(bytes: &[u8], size: usize) -> Option<&[u8]>
    ensures { MatchOption result (ends_early size bytes.now ≡ true) (λ rest. (ends_early size bytes.now ≡ false) × (rest.now ≡ after_section size bytes.now)) }
{
    let records = bytes.get(4..)?;
    let count = number::get(bytes) as usize;
    records.get(count.saturating_mul(size)..)
}

// A section that does not end early.
#[derive(Clone, Copy)]
pub(crate) struct Section<'a> {
    pub(crate) count: usize,
    pub(crate) records: &'a [u8],
    pub(crate) after: &'a [u8],
}

impl<'a> Section<'a> {
    // The section that some bytes begin with, whose records have so many bytes each.
    pub(crate) fn first(bytes: &'a [u8], size: usize) -> Section<'a>
        requires { ends_early size bytes.now ≡ false }
        ensures count { result.count ≡ count_in bytes.now }
        ensures records { result.records.now ≡ records_in size bytes.now }
        ensures after { result.after.now ≡ after_section size bytes.now }
    {
        let count = number::get(bytes) as usize;
        let (records, after) = bytes[4..].split_at(count * size);
        Section {
            count,
            records,
            after,
        }
    }
}

// What follows section 0, which has six face bytes and the form's mark, or none where it has not.
fn after_head(form: SavedForm, bytes: &[u8]) -> Option<&[u8]>
    ensures { MatchOption result ((ends_early 1 bytes.now || wrong_head (form_of form) bytes.now) ≡ true) (λ rest. ((ends_early 1 bytes.now || wrong_head (form_of form) bytes.now) ≡ false) × (rest.now ≡ after_section 1 bytes.now)) }
{
    let rest = after(bytes, 1)?;
    let count = number::get(bytes) as usize;
    let wanted = 6 + form.mark.len();
    if count != wanted {
        return None;
    }
    if !bytes[10..].starts_with(form.mark) {
        return None;
    }
    Some(rest)
}

// Six sections, and the file's end.
fn check_sections(bytes: &[u8], size: usize) -> Result<(), Refusal>
    ensures { meaning result ≡ checked (section_checks size 1 6 bytes.now) }
{
    let mut rest = bytes;
    for section in 1..7 {
        match after(rest, size) {
            Some(next) => rest = next,
            None => return Err(Reason::File.at(section)),
        }
    }
    if !rest.is_empty() {
        return Err(Reason::File.at(7));
    }
    Ok(())
}

// Refusal 16 of a file of the form: the first section that ends early, or bytes after the last.
pub(crate) fn check_file(form: SavedForm, bytes: &[u8]) -> Result<(), Refusal>
    ensures { meaning result ≡ checked (file_checks (form_of form) bytes.now) }
{
    match after_head(form, bytes) {
        Some(quads) => check_sections(quads, form.quad_size()),
        None => Err(Reason::File.at(0)),
    }
}
