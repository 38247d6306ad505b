// What is said of a file that is refused: what is wrong with it, and at which byte, counted from 0.
use arrayvec::ArrayVec;
use geometry::refusal::{Reason, Refusal};
use std::fmt;

// The bytes of a quad.
const QUAD_BYTES: usize = 20;

#[derive(Debug, Drop)]
pub struct Refused {
    refusal: Refusal,
    // How many bytes the file has, and at which of them it is refused.
    length: usize,
    at: usize,
    // The bytes from there on, at most as many as a quad has.
    found: ArrayVec<u8, QUAD_BYTES>,
}

impl Refused {
    // Of a file's bytes.
    pub fn new(refusal: Refusal, bytes: &[u8]) -> Refused {
        let Refusal { reason, place } = refusal;
        let at = saved::refusal_byte(bytes, u32::from(reason), place) as usize;
        let rest = bytes.get(at..).unwrap_or(&[]);
        let found = rest.get(..QUAD_BYTES).unwrap_or(rest);
        Refused {
            refusal,
            length: bytes.len(),
            at,
            found: ArrayVec::try_from(found).unwrap_or_default(),
        }
    }

    // The number that stands where it is refused: four bytes, low byte first.
    fn number(&self) -> Option<u32> {
        let number = self.found.first_chunk()?;
        Some(u32::from_le_bytes(*number))
    }

    // A section, whose count begins where it is refused, ends early.
    fn early<W: fmt::Write>(&self, f: &mut fmt::Formatter<W>) -> fmt::Result {
        let at = self.at;
        write!(f, "section {} ends early, in its ", self.refusal.place)?;
        match self.number() {
            Some(count) => write!(f, "records; its count begins at byte {at} and is {count}")?,
            None => write!(f, "count, which begins at byte {at}")?,
        }
        write!(f, "; the file has {} bytes", self.length)
    }

    // Section 0: it is empty, ends early or has another count.
    fn head<W: fmt::Write>(&self, f: &mut fmt::Formatter<W>) -> fmt::Result {
        if self.length == 0 {
            return f.write_str("standard input is empty, and a saved mesh has at least 34 bytes");
        }
        match self.number() {
            Some(count) if count != 6 => write!(
                f,
                "section 0 has another count than 6; its count begins at byte 0 and is {count}"
            ),
            _ => self.early(f),
        }
    }

    // 16: a section that ends early, or bytes after the last.
    fn file<W: fmt::Write>(&self, f: &mut fmt::Formatter<W>) -> fmt::Result {
        match self.refusal.place {
            0 => self.head(f),
            7 => write!(
                f,
                "bytes follow section 6, from byte {} on; the file has {} bytes",
                self.at, self.length
            ),
            _ => self.early(f),
        }
    }

    // 17: a face byte, and where it stands.
    fn face<W: fmt::Write>(&self, f: &mut fmt::Formatter<W>) -> fmt::Result {
        let Refused { refusal, at, .. } = self;
        let face = refusal.place;
        let byte = self.found.first().copied().unwrap_or(0);
        write!(
            f,
            "face byte {face} is {byte:02x} in hex, at byte {at}; \
             a face byte is 00 to 05 or 08 to 0d"
        )
    }

    // 12: a quad, from its first byte on.
    fn quad<W: fmt::Write>(&self, f: &mut fmt::Formatter<W>) -> fmt::Result {
        write!(f, "quad {} is ", self.refusal.place)?;
        for number in self.found.as_chunks::<4>().0 {
            write!(f, "{} ", u32::from_le_bytes(*number))?;
        }
        write!(
            f,
            "from byte {} on; a quad's minimum is at most 255 on each axis, \
             its width and height are at least 1, and neither ends past 256",
            self.at
        )
    }
}

impl fmt::Display for Refused {
    fn fmt<W: fmt::Write>(&self, f: &mut fmt::Formatter<W>) -> fmt::Result {
        let Refusal { reason, place } = self.refusal;
        write!(f, "refused by {} at {place}: ", u32::from(reason))?;
        match reason {
            Reason::QuadLimits => self.quad(f),
            Reason::File => self.file(f),
            Reason::NoSuchNumber => self.face(f),
            _ => f.write_str("the file is refused"),
        }
    }
}
