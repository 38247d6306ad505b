// Reads a file of a form. The sections are looked at first, then the face bytes, then the quads, so that
// nothing of a file that is refused has been written.
ghost use Rattle.std.specs.Prelude.{map, ◌≡◌, ◌+◌, ◌*◌, ◌^◌, ◌<◌, ◌≤◌, length};
ghost use Rattle.geometry.specs.Refusal.{checked};
ghost use Rattle.geometry.specs.Answers.{meaning};
ghost use Rattle.geometry.specs.Quad.{side_within_limits};
ghost use Rattle.listing.specs.Listing.{joined};
ghost use Rattle.saved.specs.Bytes.{number32, read_all};
ghost use Rattle.saved.specs.Form.{quad_size};
ghost use Rattle.saved.specs.Read.{groups_in, read_checks};
ghost use Rattle.saved.specs.Saved.{reader_answer, read_outcome, read_form};
ghost use Rattle.saved.specs.Private.{form_of, Walk, fits_in, bad_quads_of, bad_groups_of};

use crate::form::SavedForm;
use crate::sections::Section;
use crate::{SavedMesh, face_byte, number, sections};
use geometry::LARGEST_AXIS;
use geometry::face::OrientedBlockFace;
use geometry::refusal::{Reason, Refusal};

// The bytes of the counts of sections 1 to 6.
const COUNTS: usize = 24;

// Whether a side of a quad, from a coordinate on, is at least 1 and ends within the largest axis.
fn side_fits(start: u32, side: u32) -> bool
    ensures { result ≡ side_within_limits start side }
{
    if side == 0 {
        return false;
    }
    let end = start as u64 + side as u64;
    end <= LARGEST_AXIS as u64
}

// Whether the quad of some bytes is within the limits. Its coordinates along u and v stand so many bytes
// on; a coordinate is within the limits where a side of 1 is.
fn quad_fits(quad: &[u8], u: usize, v: usize) -> bool
    requires quad_in_bounds { 20 ≤ length quad.now }
    requires u_bound { (u ≤ 8) × (v ≤ 8) }
    ensures { result ≡ fits_in quad.now u v }
{
    if !side_fits(number::get(quad), 1) {
        return false;
    }
    if !side_fits(number::get(&quad[4..]), 1) {
        return false;
    }
    if !side_fits(number::get(&quad[8..]), 1) {
        return false;
    }
    if !side_fits(number::get(&quad[u..]), number::get(&quad[12..])) {
        return false;
    }
    side_fits(number::get(&quad[v..]), number::get(&quad[16..]))
}

// Check 12 of the quads of a section, on a face, the first of them the file's quad `first`.
fn check_group(
    form: SavedForm,
    face: OrientedBlockFace,
    section: Section<'_>,
    first: usize,
) -> Result<(), Refusal>
    requires exact { length section.records.now ≡ section.count * quad_size form.numbers }
    requires first_bound { first + length section.records.now < 2 ^ 63 }
    ensures { meaning result ≡ checked (bad_quads_of form.numbers face first section.entry.count section.entry.records.now) }
{
    let permutation = face.permutation;
    let axes = permutation.axes();
    let u_axis = axes.u;
    let v_axis = axes.v;
    let u = 4 * u_axis.index();
    let v = 4 * v_axis.index();
    let size = form.quad_size();
    for (k, quad) in section.records.chunks_exact(size).enumerate() {
        if !quad_fits(quad, u, v) {
            let place = first + k;
            return Err(Reason::QuadLimits.at(place as u64));
        }
    }
    Ok(())
}

// Check 12 of six sections, of a file that has passed 16.
fn check_groups(form: SavedForm, faces: [OrientedBlockFace; 6], bytes: &[u8]) -> Result<(), Refusal>
    requires { Walk form.numbers 0 bytes.now }
    ensures { meaning result ≡ checked (bad_groups_of form.numbers faces 0 6 bytes.now) }
{
    let size = form.quad_size();
    let mut rest = bytes;
    let mut first: usize = 0;
    for face in faces {
        let section = Section::first(rest, size);
        check_group(form, face, section, first)?;
        first += section.count;
        rest = section.after;
    }
    Ok(())
}

// 16, then 17, then 12.
fn check(form: SavedForm, bytes: &[u8]) -> Result<(), Refusal>
    ensures { meaning result ≡ checked (read_checks (form_of form) bytes.now) }
{
    sections::check_file(form, bytes)?;
    face_byte::check(bytes)?;
    let faces = face_byte::faces(bytes);
    check_groups(form, faces, &bytes[form.first_quads()..])
}

// Takes the numbers that some bytes begin with.
fn take_numbers(bytes: &[u8], out: &mut [u32])
    requires { length out.old * 4 ≤ length bytes.now }
    ensures { out.new ≡ read_all 4 number32 (length out.old) bytes.now }
{
    for (k, n) in out.iter_mut().enumerate() {
        *n = number::get(&bytes[4 * k..]);
    }
}

// Takes the quads of six sections, of a file that has passed 16, and answers how many each has.
fn take_groups(form: SavedForm, bytes: &[u8], out: &mut [u32]) -> [u64; 6]
    requires walk { Walk form.numbers 0 bytes.now }
    requires exact { length out.old ≡ length (joined (joined (groups_in form.numbers 6 bytes.now))) }
    ensures value { result ≡ map length (groups_in form.numbers 6 bytes.now) }
    ensures out_after { out.new ≡ joined (joined (groups_in form.numbers 6 bytes.now)) }
{
    let size = form.quad_size();
    let mut counts = [0u64; 6];
    let mut rest = bytes;
    let mut at: usize = 0;
    for count in counts.iter_mut() {
        let section = Section::first(rest, size);
        let end = at + section.count * form.numbers;
        take_numbers(section.records, &mut out[at..end]);
        *count = section.count as u64;
        rest = section.after;
        at = end;
    }
    counts
}

// Reads a file of the form.
pub(crate) fn read(form: SavedForm, bytes: &[u8], out: &mut [u32]) -> Result<SavedMesh, Refusal>
    ensures { read_outcome (reader_answer (meaning result)) out.new ≡ read_form (form_of form) bytes.now out.old }
{
    check(form, bytes)?;
    let start = form.first_quads();
    let records = bytes.len() - start - COUNTS;
    let quads = records / form.quad_size();
    let capacity = out.len() / form.numbers;
    if capacity < quads {
        return Err(Reason::ManyQuads.at(capacity as u64));
    }
    let counts = take_groups(form, &bytes[start..], &mut out[..quads * form.numbers]);
    let faces = face_byte::faces(bytes);
    Ok(SavedMesh { faces, counts })
}
