// What can be wrong with a list or with a record of one.
use std::io;

// What is wrong with a record. Its text goes on from the record's number.
#[derive(Clone, Copy, Debug, thiserror::Error)]
pub enum Fault {
    #[error("is not all numbers from 0 to 4294967295 with a space between")]
    NoNumber,
    #[error("has more than 512 numbers")]
    TooLong,
    #[error("is cut off by the end of the list")]
    Cut,
    #[error("has not as many numbers as it says")]
    NotItsLength,
    #[error("is of no kind of call")]
    NoKind,
    #[error("has not as many numbers as such a call and its answer")]
    NotACall,
    #[error("has an answer that its source does not give")]
    NoSource,
    #[error("has an axis, a sign or a flag that is none")]
    NoInput,
    #[error("has a buffer of more than 4096 elements")]
    Large,
    #[error("has an answer that is longer than its buffer")]
    Small,
    #[error("has not as many voxels in its runs as it says")]
    Runs,
}

// What is wrong with a list.
#[derive(Clone, Copy, Debug, thiserror::Error)]
pub enum ListFault {
    #[error("the list is longer than 262143 bytes")]
    Long,
    #[error("the list ends before the line 0, which ends it")]
    NoEnd,
    #[error("the list goes on after the line 0, which ends it")]
    GoesOn,
}

// Why a record was not replayed to its end. By hand: it is never printed, and of what it is made from two
// go by `io::Error`.
#[derive(Debug, Drop)]
pub enum Error {
    // It is malformed.
    Malformed(Fault),
    // Printing failed.
    Io(io::Error),
}

impl From<Fault> for Error {
    fn from(fault: Fault) -> Error {
        Error::Malformed(fault)
    }
}

impl From<io::Error> for Error {
    fn from(error: io::Error) -> Error {
        Error::Io(error)
    }
}
