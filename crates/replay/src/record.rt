// A record of a list: how many numbers follow, the kind of call, the source of the answer, the input,
// and the answer. A negative number stands as itself plus 2 to the 32nd, and an f32 number as its bits.
ghost use Rattle.std.specs.Prelude.{◌<◌, ◌^◌, IfOk};

use crate::fault::Fault;
use crate::kind::Kind;

// What every byte of an output and of the visited bytes is before a call, and every word of an output.
pub const BEFORE_BYTE: u8 = 165;

pub const BEFORE: u32 = 2779096485;

// Whose an answer is.
#[derive(Clone, Copy, PartialEq, Eq)]
pub enum Source {
    Rust,
    SecondReading,
}

impl Source {
    // The source of the answers that have a refusal number, which is 0 for an accepted call.
    fn of_refusal(refusal: u32) -> Source {
        if refusal == 0 {
            Source::Rust
        } else {
            Source::SecondReading
        }
    }
}

impl TryFrom<u32> for Source {
    type Error = Fault;

    fn try_from(number: u32) -> Result<Source, Fault> {
        match number {
            1 => Ok(Source::Rust),
            2 => Ok(Source::SecondReading),
            _ => Err(Fault::NoSource),
        }
    }
}

// A record, and what is left to read of its input and answer.
#[derive(Drop)]
pub struct Record<'a> {
    pub kind: Kind,
    // A number still: one that is no source's is said after all else that is wrong.
    source: u32,
    rest: &'a [u32],
}

impl<'a> Record<'a> {
    // The record of a line's numbers.
    pub fn new(numbers: &'a [u32]) -> Result<Record<'a>, Fault> {
        let [length, kind, source, rest @ ..] = numbers else {
            return Err(Fault::NotItsLength);
        };
        if rest.is_empty() || *length as usize != numbers.len() - 1 {
            return Err(Fault::NotItsLength);
        }
        Ok(Record {
            kind: Kind::try_from(*kind)?,
            source: *source,
            rest,
        })
    }

    // Takes the next N numbers.
    pub fn take<const N: usize>(&mut self) -> Result<[u32; N], Fault> {
        let (first, rest) = self.rest.split_first_chunk().ok_or(Fault::NotACall)?;
        self.rest = rest;
        Ok(*first)
    }

    // Takes the next number.
    pub fn number(&mut self) -> Result<u32, Fault> {
        let [number] = self.take::<1>()?;
        Ok(number)
    }

    // Takes the next number, which is a length.
    pub fn length(&mut self) -> Result<usize, Fault>
        ensures { IfOk result (λ n. n < 2 ^ 32) }
    {
        Ok(self.number()? as usize)
    }

    // Takes so many numbers.
    pub fn slice(&mut self, length: usize) -> Result<&'a [u32], Fault> {
        let (first, rest) = self.rest.split_at_checked(length).ok_or(Fault::NotACall)?;
        self.rest = rest;
        Ok(first)
    }

    // Ends the record, whose answer has this refusal number, and tells its source.
    pub fn end(self, refusal: u32) -> Result<Source, Fault> {
        if !self.rest.is_empty() {
            return Err(Fault::NotACall);
        }
        let source = Source::try_from(self.source)?;
        if source == Source::of_refusal(refusal) {
            Ok(source)
        } else {
            Err(Fault::NoSource)
        }
    }
}
