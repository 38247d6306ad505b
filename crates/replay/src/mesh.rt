// The meshers' calls. A record has shape, minimum and maximum, twelve numbers of faces, the number of
// voxels, the number of runs, and two numbers for each run; the number of visited bytes and the length of
// the output; nine numbers of the answer, how many numbers are written, and these; and how many visited
// bytes are 0.
use crate::fault::{Error, Fault};
use crate::kind::Kind;
use crate::record::{BEFORE, BEFORE_BYTE, Record, Source};
use crate::tally::Tally;
use spunmarrow::mesh;

// The buffers of which a call is lent the first elements, as many as its record says. They hold the most
// that a call of a list has.
#[derive(Drop)]
pub struct Buffers<'b> {
    pub voxels: &'b mut [u16],
    pub visited: &'b mut [u8],
    pub out: &'b mut [u32],
}

// What a mesher writes, as a record has it: the answer, the first numbers of the output, and how many
// visited bytes are 0. The others are as they were before the call.
#[derive(Clone, Copy)]
struct Expected<'a> {
    answer: [u64; 9],
    written: &'a [u32],
    cleared: usize,
}

// A call as its record has it: how many elements of each buffer it is lent, and the runs of its voxels.
#[derive(Clone, Copy)]
struct Call<'a> {
    kind: Kind,
    source: Source,
    shape: [u32; 3],
    min: [u32; 3],
    max: [u32; 3],
    faces: [i32; 12],
    voxels: usize,
    visited: usize,
    out: usize,
    runs: &'a [[u32; 2]],
    expected: Expected<'a>,
}

// An answer that no call writes: it differs from every list's.
const NO_ANSWER: [u64; 9] = [u64::MAX; 9];

// The first elements of a buffer, so many.
fn first<T>(buffer: &mut [T], length: usize) -> Result<&mut [T], Fault> {
    buffer.get_mut(..length).ok_or(Fault::Large)
}

// Puts the voxels of runs, which are as many as there is room for.
fn put_runs(runs: &[[u32; 2]], voxels: &mut [u16]) -> Result<(), Fault> {
    let mut at: usize = 0;
    for [length, voxel] in runs {
        let voxel = u16::try_from(*voxel).map_err(|_| Fault::Runs)?;
        let end = at.saturating_add(*length as usize);
        voxels.get_mut(at..end).ok_or(Fault::Runs)?.fill(voxel);
        at = end;
    }
    if at == voxels.len() {
        Ok(())
    } else {
        Err(Fault::Runs)
    }
}

impl<'a> Call<'a> {
    fn read(mut record: Record<'a>) -> Result<Self, Fault> {
        let kind = record.kind;
        let shape = record.take()?;
        let min = record.take()?;
        let max = record.take()?;
        let faces = record.take()?.map(u32::cast_signed);
        let voxels = record.length()?;
        let run_count = record.length()?;
        let (runs, _) = record.slice(2 * run_count)?.as_chunks();
        let visited = record.length()?;
        let out = record.length()?;
        let answer: [u32; 9] = record.take()?;
        let written_count = record.length()?;
        let written = record.slice(written_count)?;
        let cleared = record.length()?;
        let source = record.end(answer[0])?;
        Ok(Call {
            kind,
            source,
            shape,
            min,
            max,
            faces,
            voxels,
            visited,
            out,
            runs,
            expected: Expected {
                answer: answer.map(u64::from),
                written,
                cleared,
            },
        })
    }

    // Fills what is lent to the call as it is before it.
    fn fill(&self, voxels: &mut [u16], visited: &mut [u8], out: &mut [u32]) -> Result<(), Fault> {
        if self.expected.written.len() > out.len() || self.expected.cleared > visited.len() {
            return Err(Fault::Small);
        }
        put_runs(self.runs, voxels)?;
        visited.fill(BEFORE_BYTE);
        out.fill(BEFORE);
        Ok(())
    }

    // Counts the call, and compares what it left.
    fn compare<R: Print>(
        &self,
        tally: &mut Tally<'_, R>,
        answer: &[u64; 9],
        visited: &[u8],
        out: &[u32],
    ) -> Result<(), Error> {
        let kind = self.kind;
        let Expected {
            answer: expected,
            written,
            cleared,
        } = self.expected;
        tally.replayed(kind, self.source);
        tally.compare(
            kind,
            "answer (refusal, place, counts, tests), number",
            &expected,
            answer,
        )?;
        tally.compare_all(
            kind,
            "output number",
            |index| written.get(index).copied().unwrap_or(BEFORE),
            out,
        )?;
        tally.compare_all(
            kind,
            "visited byte",
            |index| if index < cleared { 0 } else { BEFORE_BYTE },
            visited,
        )?;
        Ok(())
    }

    fn greedy_quads<R: Print>(
        &self,
        tally: &mut Tally<'_, R>,
        voxels: &mut [u16],
        visited: &mut [u8],
        out: &mut [u32],
    ) -> Result<(), Error> {
        let voxels = first(voxels, self.voxels)?;
        let visited = first(visited, self.visited)?;
        let out = first(out, self.out)?;
        self.fill(voxels, visited, out)?;
        let mut answer = NO_ANSWER;
        mesh::spunmarrow_greedy_quads(
            &self.shape,
            &self.min,
            &self.max,
            &self.faces,
            voxels,
            visited,
            out,
            &mut answer,
        );
        self.compare(tally, &answer, visited, out)
    }

    fn visible_block_faces<R: Print>(
        &self,
        tally: &mut Tally<'_, R>,
        voxels: &mut [u16],
        visited: &mut [u8],
        out: &mut [u32],
    ) -> Result<(), Error> {
        let voxels = first(voxels, self.voxels)?;
        let visited = first(visited, self.visited)?;
        let out = first(out, self.out)?;
        self.fill(voxels, visited, out)?;
        let mut answer = NO_ANSWER;
        mesh::spunmarrow_visible_block_faces(
            &self.shape,
            &self.min,
            &self.max,
            &self.faces,
            voxels,
            out,
            &mut answer,
        );
        self.compare(tally, &answer, visited, out)
    }
}

pub fn greedy_quads<R: Print>(
    tally: &mut Tally<'_, R>,
    buffers: &mut Buffers<'_>,
    record: Record<'_>,
) -> Result<(), Error> {
    let call = Call::read(record)?;
    call.greedy_quads(tally, buffers.voxels, buffers.visited, buffers.out)
}

pub fn visible_block_faces<R: Print>(
    tally: &mut Tally<'_, R>,
    buffers: &mut Buffers<'_>,
    record: Record<'_>,
) -> Result<(), Error> {
    let call = Call::read(record)?;
    call.visible_block_faces(tally, buffers.voxels, buffers.visited, buffers.out)
}
