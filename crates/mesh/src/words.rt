// The words of the command line.
use crate::say::{Failure, WordError, Wrong};
use arrayvec::ArrayVec;
use geometry::vector::UVec3;
use std::env::FillError;
use std::rt::Env;
use std::str;

// No word of this command is longer. They are read as bytes, since `env::args` gives no word that is not
// text.
pub const LONGEST: usize = 64;

// What is asked for.
#[derive(Clone, Copy)]
pub struct Job {
    pub form: Form,
    pub shape: UVec3,
    // The box.
    pub min: UVec3,
    pub max: UVec3,
}

// As what the mesh is printed.
#[derive(Clone, Copy)]
pub enum Form {
    Greedy,
    Unit,
    Obj,
}

// What the words so far have said.
#[derive(Drop)]
struct Words {
    // Two flags and no Form: either may come twice, and that both came is said after them all.
    unit: bool,
    obj: bool,
    shape: ArrayVec<u32, 3>,
    // The numbers of the box, where there is one.
    corners: Option<ArrayVec<u32, 6>>,
}

impl Words {
    fn new() -> Words {
        Words {
            unit: false,
            obj: false,
            shape: ArrayVec::new(),
            corners: None,
        }
    }

    fn take(&mut self, word: &[u8]) -> Result<(), WordError> {
        match word {
            b"--unit" => self.unit = true,
            b"--obj" => self.obj = true,
            b"--box" => {
                if self.corners.is_some() {
                    return Err(WordError::Again);
                }
                self.corners = Some(ArrayVec::new());
            }
            _ => self.take_number(number(word).ok_or(WordError::Unknown)?)?,
        }
        Ok(())
    }

    // Takes a number: of the box where one is open, and else of the shape.
    fn take_number(&mut self, n: u32) -> Result<(), WordError> {
        if let Some(corners) = &mut self.corners
            && corners.try_push(n).is_ok()
        {
            return Ok(());
        }
        self.shape.try_push(n).map_err(|_| WordError::OneTooMany)
    }

    // What all of them ask for.
    fn job(self) -> Result<Job, Wrong> {
        let Words {
            unit,
            obj,
            shape,
            corners,
        } = self;
        let form = match (unit, obj) {
            (false, false) => Form::Greedy,
            (true, false) => Form::Unit,
            (false, true) => Form::Obj,
            (true, true) => return Err(Wrong::UnitWithObj),
        };
        let corners = corners.map(corners_of).transpose()?;
        let shape = shape_of(shape)?;
        let (min, max) = corners.unwrap_or((UVec3 { x: 0, y: 0, z: 0 }, last(shape)));
        Ok(Job {
            form,
            shape,
            min,
            max,
        })
    }
}

// The shape that three numbers are.
fn shape_of(numbers: ArrayVec<u32, 3>) -> Result<UVec3, Wrong> {
    let [x, y, z] = numbers.into_inner().map_err(|few| Wrong::Shape(few.len()))?;
    Ok(UVec3 { x, y, z })
}

// The two corners of a box that six numbers are.
fn corners_of(numbers: ArrayVec<u32, 6>) -> Result<(UVec3, UVec3), Wrong> {
    let [x0, y0, z0, x1, y1, z1] = numbers
        .into_inner()
        .map_err(|few| Wrong::Corners(few.len()))?;
    let min = UVec3 {
        x: x0,
        y: y0,
        z: z0,
    };
    let max = UVec3 {
        x: x1,
        y: y1,
        z: z1,
    };
    Ok((min, max))
}

// The last voxel of a block.
fn last(shape: UVec3) -> UVec3 {
    UVec3 {
        x: shape.x.saturating_sub(1),
        y: shape.y.saturating_sub(1),
        z: shape.z.saturating_sub(1),
    }
}

// The number that a word is, by digits alone: a sign is none.
fn number(word: &[u8]) -> Option<u32> {
    if !word.iter().all(|byte| byte.is_ascii_digit()) {
        return None;
    }
    str::from_utf8(word).ok()?.parse::<u32>().ok()
}

// What the words of the command line ask for.
pub fn read<R: Env>(rt: &R) -> Result<Job, Failure> {
    let mut words = Words::new();
    for position in 1..usize::MAX {
        let mut buffer = [0u8; LONGEST];
        match rt.arg(position, &mut buffer) {
            Ok(length) => {
                if let Err(wrong) = words.take(&buffer[..length]) {
                    let mut word = ArrayVec::from(buffer);
                    word.truncate(length);
                    return Err(Failure::Word(position, word, wrong));
                }
            }
            Err(FillError::TooLong) => return Err(Failure::LongWord(position)),
            Err(FillError::NotPresent) => break,
        }
    }
    Ok(words.job()?)
}
