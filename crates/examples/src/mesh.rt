// The meshers, with the buffers that they are lent.
ghost use Rattle.std.specs.Prelude.{◌<◌};

use crate::given::{self, Given};
use calls::show;
use geometry::face::OrientedBlockFace;
use geometry::refusal::Refusal;
use geometry::vector::UVec3;
use std::array;
use std::io::{self, Write};
use voxels::bounds::{self, Entry};

// What a mesher is given beside its buffers.
#[derive(Clone, Copy)]
pub struct Meshing {
    shape: UVec3,
    min: UVec3,
    max: UVec3,
    faces: [OrientedBlockFace; 6],
}

// A shape, a box and six faces, after `/ `.
fn what_is_meshed(out: &mut impl Write, given: &mut Given<'_>) -> io::Result<Meshing> {
    given.skip(2);
    let shape = given.point();
    let min = given.point();
    let max = given.point();
    let faces = array::try_from_fn(|_| given.face(out))?;
    Ok(Meshing {
        shape,
        min,
        max,
        faces,
    })
}

// What an entry answers: how many voxels the shape has, and where the interior starts and ends; or
// a refusal and its place.
fn entry(out: &mut impl Write, came: Result<Entry, Refusal>) -> io::Result<()> {
    match came {
        Ok(e) => {
            show::number(out, e.size)?;
            show::point(out, e.interior.minimum)?;
            show::point(out, e.interior.bound)
        }
        Err(refused) => show::refusal(out, refused),
    }
}

// What a mesher answers: its refusal and place, which are 0 where it refuses nothing, and its six
// counts, which are 0 where it refuses.
fn answer(out: &mut impl Write, came: Result<[u64; 6], Refusal>) -> io::Result<()> {
    match came {
        Ok(_) => write!(out, " 0 0")?,
        Err(refused) => show::refusal(out, refused)?,
    }
    for count in came.unwrap_or([0; 6]) {
        show::number(out, count)?;
    }
    Ok(())
}

// All numbers of an output, so many to a quad.
fn output(out: &mut impl Write, listed: &[u32], numbers: usize) -> io::Result<()>
    requires { 0 < numbers }
{
    for quad in listed.chunks(numbers) {
        show::numbers(out, quad)?;
    }
    Ok(())
}

// How many visited bytes are 0, if they are the first ones and all others are 255 as before.
fn cleared(visited: &[u8]) -> Option<usize> {
    let zeros = visited.iter().take_while(|b| **b == 0).count();
    visited
        .iter()
        .skip(zeros)
        .all(|b| *b == 255)
        .then_some(zeros)
}

// Fills a block: the list has places, each with the voxel that stands from there on.
fn fill(given: &mut Given<'_>, voxels: &mut [u16]) {
    let mut voxel: u16 = 0;
    for (k, at) in voxels.iter_mut().enumerate() {
        let mut next = *given;
        if next.number() as usize == k {
            voxel = given::voxel(&mut next);
            *given = next;
        }
        *at = voxel;
    }
}

// Unit meshing: check 6, its entry, its answer and its output. It has no use for the visited bytes,
// which `lent` lends to every mesher.
pub fn unit<W: Write>(
    out: &mut W,
    m: Meshing,
    voxels: &[u16],
    _visited: &mut [u8],
    listed: &mut [u32],
) -> io::Result<()> {
    show::check(out, bounds::check_faces(m.faces))?;
    entry(
        out,
        bounds::enter_unit(voxels, m.shape, m.min, m.max, m.faces),
    )?;
    let came = simple::visible_block_faces(voxels, m.shape, m.min, m.max, m.faces, listed);
    answer(out, came)?;
    output(out, listed, 3)
}

// Greedy meshing: its entry, its answer with the tests, how many visited bytes are 0, and its output.
pub fn greedy<W: Write>(
    out: &mut W,
    m: Meshing,
    voxels: &[u16],
    visited: &mut [u8],
    listed: &mut [u32],
) -> io::Result<()> {
    let lent = visited.len();
    entry(
        out,
        bounds::enter_greedy(voxels, m.shape, m.min, m.max, m.faces, lent),
    )?;
    let came = greedy::greedy_quads(voxels, m.shape, m.min, m.max, m.faces, visited, listed);
    answer(out, came.map(|mesh| mesh.counts))?;
    show::number(out, came.map_or(0, |mesh| mesh.tests))?;
    show::number(out, cleared(visited).unwrap_or(4294967295))?;
    output(out, listed, 5)
}

// A mesher that is lent so many voxels, visited bytes and numbers of output.
pub fn lent<W: Write, F>(out: &mut W, given: &mut Given<'_>, mesh: F) -> io::Result<()>
where
    F: FnOnce(&mut W, Meshing, &[u16], &mut [u8], &mut [u32]) -> io::Result<()>,
    requires { F.IsAlwaysCallable mesh }
{
    let mut voxels = [0u16; 1028];
    let mut visited = [255u8; 1028];
    let mut listed = [9u32; 64];
    let voxels = &mut voxels[..(given.number() % 1029) as usize];
    let visited = &mut visited[..(given.number() % 1029) as usize];
    let listed = &mut listed[..(given.number() % 65) as usize];
    fill(given, voxels);
    let m = what_is_meshed(out, given)?;
    mesh(out, m, voxels, visited, listed)
}
