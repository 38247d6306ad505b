// Makes document 01's calls of the meshers and their checks, through the proved crates, and prints each
// with what comes out of it. Those of the drawing code are in crate drawing.
// The calls are read from standard input: the file stdin beside src/. The file stdout has what must
// come out, written from document 01; the gate compares. The form of both stands in their first lines.
#![tactic(auto)]

mod call;
mod checks;
mod given;
mod mesh;

use call::Meshers;
use calls::given::Notation;
use std::io;

fn main(rt: HostRuntime) -> io::Result<()> {
    let mut room = calls::room();
    let list = calls::read(&mut rt.reader(), &mut room)?;
    calls::run(&mut io::writer(&rt), list, Notation::Decimal, &Meshers)
}
