// What a call is given: the numbers of a list, and what they stand for.
ghost use Rattle.std.specs.Prelude.{◌≡◌, ◌+◌, ◌*◌, ◌%◌, ◌^◌, length, fold, filter_map, take_while, drop, if◌then◌else◌, IfOk, OnOk};
ghost use Rattle.std.specs.Io.KnownBytes.{Appends};
ghost use Rattle.calls.specs.Text.{digit, is_digit, begins, unsigned, number};
ghost use Rattle.calls.specs.Given.{Reads, Leaves, signed, axis, point, permutation, permutation_mark, face, face_mark};

use crate::{show, text};
use geometry::axis::{Axis, AxisPermutation};
use geometry::face::OrientedBlockFace;
use geometry::vector::UVec3;
use std::io::{self, Write};

// How the numbers of a list are written.
#[derive(Clone, Copy, PartialEq, Eq)]
pub enum Notation {
    // In base 10.
    Decimal,
    // In base 10 or, after an x, in base 16.
    Hexadecimal,
}

// What is left of what a call is given. Each number has one byte after it.
#[derive(Clone, Copy)]
pub struct Given<'a> {
    pub rest: &'a [u8],
    pub notation: Notation,
}

// What a byte is as a digit of base 10 or 16.
fn digit(b: u8, base: u32) -> Option<u32>
    ensures { result ≡ digit base b }
{
    match b {
        b'0'..=b'9' => Some(u32::from(b - b'0')),
        b'a'..=b'f' if base == 16 => Some(u32::from(b - b'a') + 10),
        _ => None,
    }
}

// The number that the digits at the start of a text spell, modulo 2 to the 32nd, which each digit is
// taken by; and what stands past them. In a loop of its own nothing else is carried along.
#[inline(never)]
fn spelt(text: &[u8], base: u32) -> (u32, &[u8])
    ensures number { result.0 ≡ fold (λ n d. (n * base % 2 ^ 32 + d) % 2 ^ 32) 0 (filter_map (digit base) (take_while (is_digit base) text.now)) }
    ensures past { result.1.now ≡ drop (length (take_while (is_digit base) text.now)) text.now }
{
    let mut number = 0u32;
    let mut rest = text;
    // Not by iterators: the digits would be gone through once to count them, and once more to take them.
    while let Some((b, past)) = rest.split_first() {
        match digit(*b, base) {
            Some(d) => number = number.wrapping_mul(base).wrapping_add(d),
            None => return (number, rest),
        }
        rest = past;
    }
    (number, rest)
}

impl Given<'_> {
    // The digits that stand next, as a number of 32 bits; 0 where there are none.
    fn unsigned(&mut self, base: u32) -> u32
        ensures { Reads (λ _. unsigned base) self.old self.new result }
    {
        let (number, rest) = spelt(self.rest, base);
        self.rest = text::past(rest, 1);
        number
    }

    // Goes on past a byte where it stands next, and answers whether it did.
    fn skips(&mut self, byte: u8) -> bool
        ensures value { result ≡ begins byte self.old.rest.now }
        ensures rest { self.new.rest.now ≡ (if result then drop 1 self.old.rest.now else self.old.rest.now) }
        ensures notation { self.new.notation ≡ self.old.notation }
    {
        match self.rest.split_first() {
            Some((b, rest)) if *b == byte => {
                self.rest = rest;
                true
            }
            _ => false,
        }
    }

    // The number that stands next: with a minus it is that much less than 2 to the 32nd.
    #[tactic(auto, unfolding(crate::specs::Text::number))]
    pub fn number(&mut self) -> u32
        ensures { Reads number self.old self.new result }
    {
        if self.skips(b'-') {
            self.unsigned(10).wrapping_neg()
        } else if self.notation == Notation::Hexadecimal && self.skips(b'x') {
            self.unsigned(16)
        } else {
            self.unsigned(10)
        }
    }

    // A signed number.
    pub fn signed(&mut self) -> i32
        ensures { Reads signed self.old self.new result }
    {
        self.number().cast_signed()
    }

    // An axis by its index.
    pub fn axis(&mut self) -> Axis
        ensures { Reads axis self.old self.new result }
    {
        match self.number() {
            0 => Axis::X,
            1 => Axis::Y,
            _ => Axis::Z,
        }
    }

    // A point: its three numbers.
    pub fn point(&mut self) -> UVec3
        ensures { Reads point self.old self.new result }
    {
        let x = self.number();
        let y = self.number();
        let z = self.number();
        UVec3 { x, y, z }
    }

    // A permutation by its number. A question mark is written where there is none, and Xyz taken.
    fn permutation<W: Write>(&mut self, out: &mut W) -> io::Result<AxisPermutation>
        ensures read { IfOk result (Reads permutation self.old self.new) }
        ensures left { Leaves (λ notation text. (permutation notation text).1) self.old self.new }
        ensures mark { OnOk result (Appends (W.contents out.old) (W.contents out.new)
            (permutation_mark self.old.notation self.old.rest.now)) }
    {
        match AxisPermutation::try_from(self.number()) {
            Ok(p) => Ok(p),
            Err(_) => {
                show::unknown(out)?;
                Ok(AxisPermutation::Xyz)
            }
        }
    }

    // A face: its sign and its permutation's number. A question mark is written where there is no such
    // permutation, and Xyz taken.
    pub fn face<W: Write>(&mut self, out: &mut W) -> io::Result<OrientedBlockFace>
        ensures read { IfOk result (Reads face self.old self.new) }
        ensures left { Leaves (λ notation text. (face notation text).1) self.old self.new }
        ensures mark { OnOk result (Appends (W.contents out.old) (W.contents out.new)
            (face_mark self.old.notation self.old.rest.now)) }
    {
        let n_sign = self.signed();
        let permutation = self.permutation(out)?;
        Ok(OrientedBlockFace {
            n_sign,
            permutation,
        })
    }

    // Goes on past so many bytes.
    pub fn skip(&mut self, count: usize)
        ensures { Leaves (λ _ text. drop count text) self.old self.new }
    {
        self.rest = text::past(self.rest, count);
    }
}
