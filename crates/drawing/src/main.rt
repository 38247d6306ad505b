// Makes document 01's calls of the drawing code, through crate geometry alone, and prints each with what
// comes out of it.
// The calls are read from standard input: the file stdin beside src/. The file stdout has what must
// come out, written from document 01; the gate compares. The form of both stands in their first lines.
#![tactic(auto)]

mod axes;
mod call;
mod draw;
mod given;
mod show;

use call::Drawing;
use calls::given::Notation;
use std::io;

fn main(rt: HostRuntime) -> io::Result<()> {
    let mut room = calls::room();
    let list = calls::read(&mut rt.reader(), &mut room)?;
    calls::run(&mut io::writer(&rt), list, Notation::Hexadecimal, &Drawing)
}
