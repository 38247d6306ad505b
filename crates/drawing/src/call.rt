// Which call a line makes.
use crate::{axes, draw, show};
use calls::{Call, Calls};
use std::io::{self, Write};

// The calls of the drawing code.
pub struct Drawing;

impl Calls for Drawing {
    // The letter says which call it is; a question mark is written for any other.
    fn make<W: Write>(&self, out: &mut W, call: Call<'_>) -> io::Result<()> {
        let mut given = call.given;
        match call.letter {
            Some(b'o') => axes::order(out, &mut given),
            Some(b's') => axes::sign(out, &mut given),
            Some(b'd') => axes::direction(out, &mut given),
            Some(b'f') => draw::face(out, &mut given),
            Some(b'q') => draw::unit_quad(out, &mut given),
            Some(b'c') => draw::corners(out, &mut given),
            Some(b'p') => draw::position(out, &mut given),
            Some(b'i') => draw::indices(out, &mut given),
            Some(b't') => draw::textures(out, &mut given),
            _ => show::unknown(out),
        }
    }
}
