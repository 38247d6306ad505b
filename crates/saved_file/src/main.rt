// Tells what a saved mesh holds, or writes it as Wavefront OBJ text.
//
//     saved_file info|obj < FILE
//
// FILE has the bytes of a saved mesh, as crate saved writes them. `info` prints the file's form and its
// bytes, and a line for each face: its sign and its permutation, the number of its quads, the sum of
// their areas, and the lowest and the highest x, y and z of their corners; the last line has the same
// of all faces. `obj` prints the mesh as OBJ text. Where the file is refused it is said on standard
// error by which number, at which place and at which byte, counted from 0; what else is wrong is said
// there too, and then nothing is printed.
#![tactic(auto)]

mod facts;
mod info;
mod load;
mod refused;
mod say;
mod space;
mod words;

use load::File;
use say::{Failure, Wrong};
use std::io;
use std::rt::Env;
use words::Job;

// Prints the quads of a file as OBJ text, of at most 3,000,000 bytes.
fn write_obj(rt: &impl Print, file: &File) -> Result<(), Failure> {
    let mut room = space::text();
    let text: &mut [u8] = &mut room;
    let written = obj::write_obj(file.faces, file.counts, file.quads, text)?;
    rt.write_all(text.get(..written).unwrap_or(text))
        .map_err(|_| Wrong::Unwritten)?;
    Ok(())
}

// Reads a file and does with it what is asked for. This is no part of `run`, so that a wrong word needs
// no room for the buffers.
#[inline(never)]
fn run_job<R: Input + Print>(rt: &R, job: Job) -> Result<(), Failure> {
    let mut room = space::quads();
    let quads: &mut [u32] = &mut room;
    let file = load::read(rt, quads)?;
    match job {
        Job::Info => Ok(info::print(rt, &file)?),
        Job::Obj => write_obj(rt, &file),
    }
}

fn run<R: Env + Input + Print>(rt: &R) -> Result<(), Failure> {
    let job = words::read(rt)?;
    run_job(rt, job)
}

fn main(rt: HostRuntime) -> io::Result<()> {
    match run(&rt) {
        Ok(()) => Ok(()),
        Err(failure) => failure.say(&rt.stderr()),
    }
}
