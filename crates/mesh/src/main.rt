// Prints the quads of a block of voxels.
//
//     mesh [--unit | --obj] [--box X0 Y0 Z0 X1 Y1 Z1] X Y Z < BLOCK
//
// BLOCK has the X·Y·Z voxels of the block, x fastest, then y, then z, two bytes each, the low byte
// first. The block is meshed on the six faces of a cube, and a line is printed for each quad: the
// face and the quad's minimum x, y and z, width and height. The last line has the number of quads of
// each face and the tests. `--unit` meshes unit quads, which have a minimum alone and take no tests,
// `--obj` prints the mesh as Wavefront OBJ text instead, and `--box` meshes a part of the block, both
// corners included. What is wrong is said on standard error, and then nothing is printed.
#![tactic(auto)]

ghost use Rattle.std.specs.Prelude.{◌≤◌, length};

mod block;
mod say;
mod show;
mod space;
mod words;

use geometry::face::OrientedBlockFace;
use geometry::refusal::Refusal;
use greedy::{GreedyMesh, QUAD_NUMBERS};
use say::{Failure, Wrong};
use show::FACES;
use std::io;
use std::rt::Env;
use words::{Form, Job};

// How many numbers a unit quad has.
const UNIT_NUMBERS: usize = 3;

// The six faces of a cube.
fn cube() -> [OrientedBlockFace; 6] {
    FACES.map(OrientedBlockFace::canonical)
}

// Meshes unit quads, and prints them.
fn mesh_unit<R: Print>(rt: &R, job: Job, voxels: &[u16]) -> Result<(), Failure> {
    let mut quads = space::unit_quads();
    let counts = simple::visible_block_faces(
        voxels,
        job.shape,
        job.min,
        job.max,
        cube(),
        &mut quads,
    )?;
    show::mesh(rt, quads.as_chunks::<UNIT_NUMBERS>().0, counts, None)?;
    Ok(())
}

// Greedy meshing. The marks are needed no longer than this.
fn greedy_quads(job: Job, voxels: &[u16], quads: &mut [u32]) -> Result<GreedyMesh, Refusal>
    requires { length voxels.now ≤ 262144 }
{
    let mut visited = space::visited();
    greedy::greedy_quads(
        voxels,
        job.shape,
        job.min,
        job.max,
        cube(),
        &mut visited[..voxels.len()],
        quads,
    )
}

// Meshes greedy quads, and prints them as lines or as OBJ text.
fn mesh_greedy<R: Print>(rt: &R, job: Job, voxels: &[u16]) -> Result<(), Failure>
    requires { length voxels.now ≤ 262144 }
{
    let mut quads = space::greedy_quads();
    let mesh = greedy_quads(job, voxels, &mut quads)?;
    if let Form::Obj = job.form {
        return write_obj(rt, mesh.counts, &quads);
    }
    let quads = quads.as_chunks::<QUAD_NUMBERS>().0;
    show::mesh(rt, quads, mesh.counts, Some(mesh.tests))?;
    Ok(())
}

// Prints greedy quads as OBJ text.
fn write_obj<R: Print>(rt: &R, counts: [u64; 6], quads: &[u32]) -> Result<(), Failure> {
    let mut text = space::text();
    let written = obj::write_obj(cube(), counts, quads, &mut text)?;
    let written = written.min(text.len());
    rt.write_all(&text[..written])
        .map_err(|_| Wrong::Unwritten)?;
    Ok(())
}

fn run<R: Env + Input + Print>(rt: &R) -> Result<(), Failure> {
    let job = words::read(rt)?;
    let mut room = space::voxels();
    let voxels = block::read(rt, job.shape, &mut room)?;
    match job.form {
        Form::Unit => mesh_unit(rt, job, voxels),
        Form::Greedy | Form::Obj => mesh_greedy(rt, job, voxels),
    }
}

fn main(rt: HostRuntime) -> io::Result<()> {
    match run(&rt) {
        Ok(()) => Ok(()),
        Err(failure) => failure.say(&rt.stderr()),
    }
}
