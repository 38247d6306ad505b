// Lists of calls, and what comes out of each: what the programs `examples` and `drawing` share.
//
// A list is text. The program prints each of its lines and, behind a line that is no comment, ` =` and
// what comes out of the line's call.
#![tactic(auto)]

ghost use Rattle.std.specs.Prelude.{◌≡◌, ◌≤◌, ℕ, List, Option, None, IfSome, IfOk, OnOk, take, length};
ghost use Rattle.std.specs.Io.KnownBytes.{Appends, Consumes};
ghost use Rattle.calls.specs.declared.given.Notation.{Notation};
ghost use Rattle.calls.specs.Lines.{letter, given, after, line_written, written, no_bytes};

pub mod given;
pub mod show;
mod text;

use given::{Given, Notation};
use std::io::{self, Read, Write};

// The most bytes of an input that are its list: what comes after them is not read.
pub const LONGEST: usize = 65536;

// For the bytes of a list: more of one are not read.
pub fn room() -> [u8; LONGEST]
    ensures length { 65536 ≡ length result }
    ensures bytes { result ≡ no_bytes }
{
    [0; LONGEST]
}

// Reads the list of calls into lent bytes, as much of the input as they hold, and answers the part of
// them that it filled.
pub fn read<'a, R: Read>(input: &mut R, room: &'a mut [u8]) -> io::Result<&'a [u8]>
    ensures bytes { IfOk result (λ list. IfSome (R.remaining input.old) (λ bytes. list.now ≡ take (length room.old) bytes)) }
    ensures bound { IfOk result (λ list. length list.now ≤ length room.old) }
    ensures place { IfOk result (λ list. list.ref_ptr ≡ room.entry.ref_ptr) }
    ensures left { IfOk result (λ list. Consumes (R.remaining input.old) (R.remaining input.new) list.now) }
{
    // Not by `read_to_end`, which needs the heap: examples and drawing allocate nothing (docs/DECISIONS.md 73).
    let mut got = 0;
    while got < room.len() {
        let n = input.read(&mut room[got..])?;
        if n == 0 {
            break;
        }
        got += n;
    }
    Ok(&room[..got])
}

// What a line calls: the first letter of its name, and what it is given. The name stands after the
// label and `: `, and what is given after the name and a space.
#[derive(Clone, Copy)]
pub struct Call<'a> {
    pub letter: Option<u8>,
    pub given: Given<'a>,
}

// The calls of a program.
pub trait Calls {
    // What comes out of a call, where it is known: by how numbers are written, the call's letter and what
    // it is given.
    ghost outcome: { Self → Notation → Option ℕ → List ℕ → Option (List ℕ) } = { λ _ _ _ _. None };

    // Makes a call and writes what comes out of it.
    // The writer and what is given stay two: a call reads of the one while it writes to the other.
    fn make<W: Write>(&self, out: &mut W, call: Call<'_>) -> io::Result<()>
        ensures { OnOk result (IfSome (outcome self.now call.entry.given.notation call.entry.letter call.entry.given.rest.now)
            (Appends (W.contents out.old) (W.contents out.new))) };
}

impl Call<'_> {
    // The call of the line that a text begins with. Where the line has no label or no name, what stands
    // in the lines after it is taken.
    fn first(text: &[u8], notation: Notation) -> Call<'_>
        ensures letter { result.letter ≡ letter text.now }
        ensures rest { result.given.rest.now ≡ given text.now }
        ensures notation { result.given.notation ≡ notation }
    {
        let (_, labelled) = text::cut(text, b':');
        let name = text::past(labelled, 1);
        let (_, rest) = text::cut(name, b' ');
        Call {
            letter: name.first().copied(),
            given: Given { rest, notation },
        }
    }
}

// Writes the line that a text begins with and, where it is no comment, makes its call. Answers what
// stands past the line.
fn line<'a, W: Write, C: Calls>(
    out: &mut W,
    text: &'a [u8],
    notation: Notation,
    calls: &C,
) -> io::Result<&'a [u8]>
    ensures rest { IfOk result (λ rest. rest.now ≡ after 10 text.now) }
    ensures bytes { OnOk result (IfSome (line_written (C.outcome calls.now notation) text.now)
        (Appends (W.contents out.old) (W.contents out.new))) }
{
    let (line, rest) = text::cut(text, b'\n');
    out.write_all(line)?;
    if !line.starts_with(b"#") {
        out.write_all(b" =")?;
        calls.make(out, Call::first(text, notation))?;
    }
    out.write_all(b"\n")?;
    Ok(rest)
}

// Writes all lines of a list, with what comes out of their calls.
pub fn run<W: Write, C: Calls>(
    out: &mut W,
    list: &[u8],
    notation: Notation,
    calls: &C,
) -> io::Result<()>
    ensures { OnOk result (IfSome (written (C.outcome calls.now notation) list.now)
        (Appends (W.contents out.old) (W.contents out.new))) }
{
    let mut rest = list;
    // Not by `split`: what a call takes may go on in the lines after its own.
    while !rest.is_empty() {
        rest = line(out, rest, notation, calls)?;
    }
    Ok(())
}
