// What is said on standard error: what was wrong, and where.
use crate::refused::Refused;
use crate::words::LONGEST;
use arrayvec::ArrayVec;
use geometry::refusal::{Reason, Refusal};
use std::{fmt, io};
use thiserror::Error;

// What this command is for, and where more is to be had.
const LIMITS: &str =
    "saved_file takes at most 2621474 bytes, which is 131072 quads, and writes at most 3000000; \
                      the C interface (include/spunmarrow.h) has neither limit";

// Why a run ends early.
#[derive(Drop)]
pub enum Failure {
    // The word of the command line, and what is wrong with it. It need not be text.
    Word(ArrayVec<u8, LONGEST>, WordError),
    Wrong(Wrong),
    Io(io::Error),
}

impl Failure {
    // That something is wrong with a word, which has room here since none is longer than LONGEST.
    pub fn word(word: &[u8], wrong: WordError) -> Failure {
        Failure::Word(ArrayVec::try_from(word).unwrap_or_default(), wrong)
    }

    // Says what was wrong. An error of reading or writing is handed on, for `main` to end with.
    pub fn say(self, err: &impl Print) -> io::Result<()> {
        match self {
            Failure::Word(word, wrong) => {
                print!(err; "saved_file: word 1, '")?;
                err.write_all(&word)?;
                println!(err; "', {wrong}")
            }
            Failure::Wrong(wrong) => println!(err; "saved_file: {wrong}"),
            Failure::Io(error) => Err(error),
        }
    }
}

impl From<Wrong> for Failure {
    fn from(wrong: Wrong) -> Failure {
        Failure::Wrong(wrong)
    }
}

// A refusal of the reader.
impl From<Refused> for Failure {
    fn from(refused: Refused) -> Failure {
        Failure::Wrong(Wrong::File(refused))
    }
}

// A refusal of the OBJ writer.
impl From<Refusal> for Failure {
    fn from(refusal: Refusal) -> Failure {
        Failure::Wrong(Wrong::Text(TextRefused(refusal)))
    }
}

impl From<io::Error> for Failure {
    fn from(error: io::Error) -> Failure {
        Failure::Io(error)
    }
}

// What is wrong with the word.
#[derive(Debug, Drop, Error)]
pub enum WordError {
    #[error("is neither info nor obj")]
    Unknown,
    #[error("is too long for any word of saved_file")]
    TooLong,
}

// What else is wrong.
#[derive(Debug, Drop, Error)]
pub enum Wrong {
    #[error("takes one word, info or obj, and none came")]
    NoWord,
    #[error("takes one word, info or obj, and {0} came")]
    Words(usize),
    #[error("standard input is too long: {limits}", limits = LIMITS)]
    LongFile,
    #[error(transparent)]
    File(Refused),
    #[error(transparent)]
    Text(TextRefused),
    #[error("the OBJ text could not be written, or not all of it")]
    Unwritten,
}

// That the OBJ text was refused. The reasons that the mesh of a file cannot get have no words of their
// own.
#[derive(Clone, Copy, Debug)]
pub struct TextRefused(Refusal);

impl fmt::Display for TextRefused {
    fn fmt<W: fmt::Write>(&self, f: &mut fmt::Formatter<W>) -> fmt::Result {
        let Refusal { reason, place } = self.0;
        write!(f, "refused by {} at {place}: ", u32::from(reason))?;
        match reason {
            Reason::ShortOutput => write!(f, "the OBJ text is too long: {LIMITS}"),
            _ => f.write_str("the mesh is refused"),
        }
    }
}
