// Writes a file of a form. Each function fills the bytes that it is lent.
ghost use Rattle.std.specs.Prelude.{◌++◌, map, ◌≡◌, ◌+◌, ◌*◌, ◌≤◌, length, take, drop};
ghost use Rattle.geometry.specs.Refusal.{accepted, checked};
ghost use Rattle.geometry.specs.Answers.{meaning};
ghost use Rattle.listing.specs.Listing.{capacity};
ghost use Rattle.listing.specs.Cut.{items_in};
ghost use Rattle.writing.specs.Handed.{total, most_quads, handed_checks};
ghost use Rattle.writing.specs.Written.{write_answer, outcome};
ghost use Rattle.saved.specs.Bytes.{written32, written_all};
ghost use Rattle.saved.specs.Layout.{group_bytes};
ghost use Rattle.saved.specs.Saved.{file_of, write_form};
ghost use Rattle.saved.specs.Private.{form_of, head_bytes, group_at};

use crate::form::SavedForm;
use crate::{face_byte, number};
use geometry::face::OrientedBlockFace;
use geometry::refusal::{Reason, Refusal};

// The bytes of all counts and of the face bytes.
const HEAD: u64 = 34;

// Numbers, one after another.
fn numbers(list: &[u32], out: &mut [u8])
    requires { length out.old ≡ length list.now * 4 }
    ensures { out.new ≡ written_all written32 list.now }
{
    for (k, n) in list.iter().enumerate() {
        number::put(*n, &mut out[4 * k..4 * k + 4]);
    }
}

// The records of section 0: face bytes, and a form's mark.
fn head_records(codes: [u8; 6], mark: &[u8], out: &mut [u8])
    requires { length out.old ≡ 6 + length mark.now }
    ensures { out.new ≡ codes ++ mark.now }
{
    let (first, rest) = out.split_at_mut(6);
    first.copy_from_slice(&codes);
    rest.copy_from_slice(mark);
}

// A mesh that is handed in to be written in a form, and that has passed its checks.
#[derive(Clone, Copy)]
pub(crate) struct HandedMesh<'a> {
    pub(crate) form: SavedForm,
    pub(crate) faces: [OrientedBlockFace; 6],
    pub(crate) counts: [u64; 6],
    pub(crate) quads: &'a [u32],
    // How many quads it has.
    pub(crate) all: u64,
    ghost passes: { checked (handed_checks form.numbers faces counts quads.now) ≡ accepted tt },
    ghost summed: { all ≡ total counts },
}

impl HandedMesh<'_> {
    // Section 0.
    fn head(&self, out: &mut [u8])
        requires { length out.old ≡ 10 + length self.now.form.mark.now }
        ensures { out.new ≡ head_bytes self.now.form.mark.now self.now.faces }
    {
        let count = 6 + self.form.mark.len();
        let (first, records) = out.split_at_mut(4);
        number::put(count as u32, first);
        head_records(face_byte::of_faces(self.faces), self.form.mark, records);
    }

    // A group's section: so many quads, after so many of the groups before.
    fn group(&self, first: usize, count: usize, out: &mut [u8])
        requires count_bound { first + count ≤ capacity self.now.form.numbers (length self.now.quads.now) }
        requires count_le_most_quads { count ≤ most_quads }
        requires exact { length out.old ≡ length (group_at self.now.form.numbers self.now.quads.now first count) }
        ensures { out.new ≡ group_at self.now.form.numbers self.now.quads.now first count }
    {
        let from = first * self.form.numbers;
        let end = from + count * self.form.numbers;
        let (head, records) = out.split_at_mut(4);
        number::put(count as u32, head);
        numbers(&self.quads[from..end], records);
    }

    // The file.
    fn file(&self, out: &mut [u8])
        requires { length out.old ≡ length (file_of (form_of self.now.form) self.now.faces self.now.counts self.now.quads.now) }
        ensures { out.new ≡ file_of (form_of self.now.form) self.now.faces self.now.counts self.now.quads.now }
    {
        let (section_0, groups) = out.split_at_mut(self.form.first_quads());
        self.head(section_0);
        let size = self.form.quad_size();
        let mut at: usize = 0;
        let mut first: usize = 0;
        for count in self.counts {
            let count = count as usize;
            let end = at + 4 + count * size;
            self.group(first, count, &mut groups[at..end]);
            at = end;
            first += count;
        }
    }

    // Refuses by 15 where the file is longer than the output.
    pub(crate) fn write(&self, out: &mut [u8]) -> Result<usize, Refusal>
        ensures { outcome (write_answer (meaning result)) out.new ≡ write_form (form_of self.now.form) (handed_checks self.now.form.numbers self.now.faces self.now.counts self.now.quads.now) self.now.faces self.now.counts self.now.quads.now out.old }
    {
        let records = self.all * self.form.quad_size() as u64;
        let length = HEAD + self.form.mark.len() as u64 + records;
        if (out.len() as u64) < length {
            return Err(Reason::ShortOutput.at(0));
        }
        let length = length as usize;
        self.file(&mut out[..length]);
        Ok(length)
    }
}
