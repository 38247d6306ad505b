// The word of the command line.
use crate::say::{Failure, WordError, Wrong};
use std::env::FillError;
use std::rt::Env;

// No word of this command is longer. They are read as bytes, since `env::args` gives no word that is not
// text.
pub const LONGEST: usize = 64;

// What is asked for.
#[derive(Clone, Copy)]
pub enum Job {
    Info,
    Obj,
}

// How many words there are.
fn count(rt: &impl Env) -> usize {
    for position in 1..usize::MAX {
        if let Err(FillError::NotPresent) = rt.arg(position, &mut [0u8; LONGEST]) {
            return position - 1;
        }
    }
    usize::MAX
}

// What the words of the command line ask for.
pub fn read(rt: &impl Env) -> Result<Job, Failure> {
    match count(rt) {
        0 => return Err(Wrong::NoWord.into()),
        1 => {}
        words => return Err(Wrong::Words(words).into()),
    }
    let mut buffer = [0u8; LONGEST];
    let Ok(length) = rt.arg(1, &mut buffer) else {
        return Err(Failure::word(b"..", WordError::TooLong));
    };
    match &buffer[..length] {
        b"info" => Ok(Job::Info),
        b"obj" => Ok(Job::Obj),
        word => Err(Failure::word(word, WordError::Unknown)),
    }
}
