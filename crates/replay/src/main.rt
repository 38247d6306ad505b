// Replays a list of calls with their answers, read from standard input, through the proved crates,
// and compares the answers and every byte of the buffers.
//
//     replay < LIST
//
// oracle/README.md has the form of a list and what its answers are: the Rust's, or a second
// reading's of document 01. The list of this program is its file stdin, whose first lines say how it
// was made. A line is printed for each difference, with the call's number in the list; then one for
// each kind of call; and last how many calls were replayed and how many differences came out. A record
// that is malformed is a difference.
#![tactic(auto)]

mod draw;
mod fault;
mod kind;
mod mesh;
mod record;
mod space;
mod tally;
mod text;

ghost use Rattle.std.specs.Prelude.{◌≤◌, length, IfOk};

use fault::{Error, ListFault};
use kind::Kind;
use mesh::Buffers;
use record::Record;
use std::io::{self, Read};
use tally::Tally;

// The most bytes of a list.
const MOST: usize = 262143;

// Replays the record of a line.
fn replay_record<R: Print>(
    tally: &mut Tally<'_, R>,
    numbers: &mut [u32],
    buffers: &mut Buffers<'_>,
    line: &[u8],
) -> Result<(), Error> {
    let record = Record::new(text::read_numbers(line, numbers)?)?;
    match record.kind {
        Kind::GreedyQuads => mesh::greedy_quads(tally, buffers, record),
        Kind::VisibleBlockFaces => mesh::visible_block_faces(tally, buffers, record),
        Kind::QuadMeshPosition => draw::position(tally, record),
        Kind::QuadCorners => draw::corners(tally, record),
        Kind::QuadMeshNormals => draw::normal(tally, record),
        Kind::QuadMeshIndices => draw::indices(tally, record),
        Kind::TexCoords => draw::tex_coords(tally, record),
        Kind::SignedAxisNew => draw::new(tally, record),
        Kind::SignedAxisFromVector => draw::from_vector(tally, record),
        Kind::Canonical => draw::canonical(tally, record),
    }
}

// Replays a list, and answers what is wrong with it as a whole.
fn replay_list<R: Print>(
    tally: &mut Tally<'_, R>,
    numbers: &mut [u32],
    buffers: &mut Buffers<'_>,
    list: &[u8],
) -> io::Result<Option<ListFault>> {
    if list.len() > MOST {
        return Ok(Some(ListFault::Long));
    }
    let mut ended = false;
    for line in list.split_inclusive(|byte| *byte == b'\n') {
        if ended {
            return Ok(Some(ListFault::GoesOn));
        }
        if text::is_end(line) {
            ended = true;
        } else if !text::is_comment(line) {
            tally.next_record();
            match replay_record(tally, numbers, buffers, line) {
                Ok(()) => {}
                Err(Error::Malformed(fault)) => tally.malformed(fault)?,
                Err(Error::Io(error)) => return Err(error),
            }
        }
    }
    Ok(if ended { None } else { Some(ListFault::NoEnd) })
}

// Reads until the text is full or the input ends, and answers how many bytes it put at its start.
fn read_full(input: &mut impl Read, text: &mut [u8]) -> io::Result<usize>
    ensures { IfOk result (λ n. n ≤ length text.new) }
{
    let mut done: usize = 0;
    while done < text.len() {
        let n = input.read(&mut text[done..])?;
        if n == 0 {
            return Ok(done);
        }
        done += n;
    }
    Ok(done)
}

// Reads a list from standard input, replays it, and answers what is wrong with it as a whole.
fn replay<R: Input + Print>(
    rt: &R,
    tally: &mut Tally<'_, R>,
    text: &mut [u8],
    numbers: &mut [u32],
    buffers: &mut Buffers<'_>,
) -> io::Result<Option<ListFault>> {
    let got = read_full(&mut rt.reader(), text)?;
    replay_list(tally, numbers, buffers, &text[..got])
}

fn main(rt: HostRuntime) -> io::Result<()> {
    let mut text = space::text();
    let mut numbers = space::numbers();
    let mut voxels = space::voxels();
    let mut visited = space::visited();
    let mut out = space::output();
    let mut buffers = Buffers {
        voxels: &mut voxels,
        visited: &mut visited,
        out: &mut out,
    };
    let mut tally = Tally::new(&rt);
    let wrong = replay(&rt, &mut tally, &mut text, &mut numbers, &mut buffers)?;
    if let Some(fault) = wrong {
        tally.wrong_list(fault)?;
    }
    tally.end()
}
