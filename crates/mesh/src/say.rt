// What is said on standard error: what was wrong, and where.
use crate::words::LONGEST;
use arrayvec::ArrayVec;
use geometry::refusal::{Reason, Refusal};
use std::{fmt, io};
use thiserror::Error;

// What this command is for, and where more is to be had.
const LIMITS: &str = "mesh takes at most 262144 voxels and lists at most 131072 quads; \
                      the C interface (include/spunmarrow.h) takes every block up to 256 by 256 by 256";

// Why a run ends early.
#[derive(Drop)]
pub enum Failure {
    // A word of the command line, by its position, and what is wrong with it. It need not be text.
    Word(usize, ArrayVec<u8, LONGEST>, WordError),
    // A word that is longer than any of this command, by its position.
    LongWord(usize),
    Wrong(Wrong),
    Io(io::Error),
}

impl Failure {
    // Says what was wrong. An error of reading or writing is handed on, for `main` to end with.
    pub fn say(self, err: &impl Print) -> io::Result<()> {
        match self {
            Failure::Word(position, word, wrong) => {
                print!(err; "mesh: word {position}, '")?;
                err.write_all(word.as_slice())?;
                println!(err; "', {wrong}")
            }
            Failure::LongWord(position) => {
                println!(err; "mesh: word {position}, '..', is too long for any word of mesh")
            }
            Failure::Wrong(wrong) => println!(err; "mesh: {wrong}"),
            Failure::Io(error) => Err(error),
        }
    }
}

// By hand: a word need not be text, so that a Failure has no Display for the derive.
impl From<Wrong> for Failure {
    fn from(wrong: Wrong) -> Failure {
        Failure::Wrong(wrong)
    }
}

impl From<Refusal> for Failure {
    fn from(refusal: Refusal) -> Failure {
        Failure::Wrong(refusal.into())
    }
}

impl From<io::Error> for Failure {
    fn from(error: io::Error) -> Failure {
        Failure::Io(error)
    }
}

// What is wrong with a word.
#[derive(Debug, Drop, Error)]
pub enum WordError {
    #[error("is neither --unit, --obj, --box nor a number from 0 to 4294967295")]
    Unknown,
    #[error("stands there a second time")]
    Again,
    #[error("is one number too many: the shape is three, X Y Z")]
    OneTooMany,
}

// What else is wrong.
#[derive(Debug, Drop, Error)]
pub enum Wrong {
    #[error("--obj writes greedy quads, and does not go with --unit")]
    UnitWithObj,
    #[error("--box takes six numbers, and {0} came")]
    Corners(usize),
    #[error("the shape is three numbers, X Y Z, and {0} came")]
    Shape(usize),
    #[error("a block of {0} voxels is too large: {limits}", limits = LIMITS)]
    Large(u32),
    #[error("the block has {wanted} bytes, two for each voxel, and standard input ended after {got}")]
    Short { wanted: usize, got: usize },
    #[error("the block has {0} bytes, two for each voxel, and standard input has more")]
    Long(usize),
    #[error(transparent)]
    Refused(Refused),
    #[error("the OBJ text could not be written, or not all of it")]
    Unwritten,
}

impl From<Refusal> for Wrong {
    fn from(refusal: Refusal) -> Wrong {
        Wrong::Refused(Refused(refusal))
    }
}

// That a call was refused. The reasons that this command cannot get have no words of their own.
#[derive(Clone, Copy, Debug)]
pub struct Refused(Refusal);

impl fmt::Display for Refused {
    fn fmt<W: fmt::Write>(&self, f: &mut fmt::Formatter<W>) -> fmt::Result {
        let Refusal { reason, place } = self.0;
        let number = u32::from(reason);
        write!(f, "refused by {number} at {place}: ")?;
        match reason {
            Reason::Shape => {
                f.write_str("that axis of the block (0, 1, 2 are x, y, z) is 0 or above 256")
            }
            Reason::MinAboveMax => {
                f.write_str("the box starts past its end on that axis (0, 1, 2 are x, y, z)")
            }
            Reason::MaxPastShape => {
                f.write_str("the box ends past the block on that axis (0, 1, 2 are x, y, z)")
            }
            Reason::MinIsMax => {
                f.write_str("the box is one voxel thick on that axis (0, 1, 2 are x, y, z)")
            }
            Reason::BadVoxel => f.write_str("the voxel of that index is of class 3, which is bad"),
            Reason::ManyQuads => write!(f, "the block has more quads than that: {LIMITS}"),
            Reason::ShortOutput => f.write_str(
                "the OBJ text is longer than the 3000000 bytes that mesh holds; \
                 host/obj_file.c writes blocks of any size",
            ),
            _ => f.write_str("the block is refused"),
        }
    }
}
