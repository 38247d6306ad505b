// The text of a list: a line is a record of numbers with a space between, or a comment.
use crate::fault::Fault;

// The number that some bytes spell: at most ten digits.
fn number(digits: &[u8]) -> Option<u32> {
    if digits.is_empty() || digits.len() > 10 {
        return None;
    }
    digits.iter().try_fold(0u32, |number, byte| {
        let digit = char::from(*byte).to_digit(10)?;
        number.checked_mul(10)?.checked_add(digit)
    })
}

// Whether a line is the number 0 alone, which ends a list.
pub fn is_end(line: &[u8]) -> bool {
    line.strip_suffix(b"\n").and_then(number) == Some(0)
}

pub fn is_comment(line: &[u8]) -> bool {
    line.starts_with(b"#")
}

// Reads the numbers of a line, which ends in its newline or with the list, into lent room, and answers the
// part of it that they fill.
pub fn read_numbers<'a>(line: &[u8], room: &'a mut [u32]) -> Result<&'a [u32], Fault> {
    let whole = line.strip_suffix(b"\n");
    let mut count: usize = 0;
    for field in whole.unwrap_or(line).split(|byte| *byte == b' ') {
        if count >= room.len() {
            return Err(Fault::TooLong);
        }
        room[count] = number(field).ok_or(Fault::NoNumber)?;
        count += 1;
    }
    if whole.is_none() {
        return Err(Fault::Cut);
    }
    Ok(&room[..count])
}
