// Which call a line makes.
use crate::{checks, mesh};
use calls::{Call, Calls, show};
use std::io::{self, Write};

// The calls of the meshers and their checks.
pub struct Meshers;

impl Calls for Meshers {
    // The letter says which call it is; a question mark is written for any other.
    fn make<W: Write>(&self, out: &mut W, call: Call<'_>) -> io::Result<()> {
        let mut given = call.given;
        match call.letter {
            Some(b'v') => checks::seen(out, &mut given),
            Some(b'n') => checks::neighbor(out, &mut given),
            Some(b'b') => checks::checks(out, &mut given),
            Some(b'u') => mesh::lent(out, &mut given, mesh::unit),
            Some(b'g') => mesh::lent(out, &mut given, mesh::greedy),
            _ => show::unknown(out),
        }
    }
}
