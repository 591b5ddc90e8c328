// The call that a line spells.
ghost use Rattle.std.specs.Prelude.{◌≡◌, ◌+◌, ◌^◌, ◌<◌, ◌≤◌, length, drop};
ghost use Rattle.std.specs.List.{AllByRecursion};
ghost use Rattle.call_lines.specs.Grammar.{Digit};
ghost use Rattle.call_lines.specs.Parsing.{Answers};
ghost use Rattle.call_lines.specs.Stops.{Ends, One, Spaces, Takes, Three, Valued};
ghost use Rattle.call_lines.specs.Words.{Begins, Front, column_of};

use crate::calls::LineCall;
use crate::words::{Rest, Word};

// How many of a line's bytes decide what it spells, or where it breaks the form.
pub const LONGEST: usize = 20;

const MOST_DIGITS: usize = 5;

// How many digits come first.
fn digit_count(bytes: &[u8]) -> usize
    ensures { Front bytes.now result }
{
    bytes
        .iter()
        .position(|byte| !byte.is_ascii_digit())
        .unwrap_or(bytes.len())
}

// The number that digits write; or the column of the digit that is one too many or makes the number too large.
fn value_of(digits: &[u8], column: usize) -> Result<u16, usize>
    requires digits { AllByRecursion Digit digits.now }
    requires some { 0 < length digits.now }
    requires fits { column + length digits.now ≤ 2 ^ 63 }
    ensures { Valued digits.now column result }
{
    // The place of a digit is part of the answer, so the loop has it beside the digit.
    let mut value = 0;
    for (place, digit) in digits.iter().enumerate() {
        value = value * 10 + (*digit - b'0') as u32;
        if place == MOST_DIGITS || value > u16::MAX as u32 {
            return Err(column + place);
        }
    }
    Ok(value as u16)
}

impl<'l> Word<'l> {
    fn column(self) -> usize
        ensures { result ≡ column_of self.entry }
    {
        match self {
            Word::Letter(_, column) | Word::Digits(_, column) | Word::End(column) => column,
        }
    }
}

// A column in an `Err` is the one at which the line breaks the form. `parse` answers it, so it has no type of its own.
impl<'l> Rest<'l> {
    fn first_word(self) -> Word<'l>
        ensures { Begins self.entry.bytes.now self.entry.column result }
    {
        match self.bytes.first() {
            Some(first) if first.is_ascii_digit() => {
                Word::Digits(&self.bytes[..digit_count(self.bytes)], self.column)
            }
            Some(first) => Word::Letter(*first, self.column),
            None => Word::End(self.column),
        }
    }

    // What is left behind some of the bytes.
    fn behind(self, count: usize) -> Rest<'l>
        requires { count ≤ length self.bytes.now }
        ensures bytes { result.bytes.now ≡ drop count self.entry.bytes.now }
        ensures column { result.column ≡ self.entry.column + count }
    {
        Rest {
            bytes: &self.bytes[count..],
            column: self.column + count,
        }
    }

    // What is left behind a space.
    fn space(self) -> Result<Rest<'l>, usize>
        ensures { Spaces self.entry.bytes.now self.entry.column result }
    {
        let word = self.first_word();
        let Word::Letter(b' ', _) = word else {
            return Err(word.column());
        };
        Ok(self.behind(1))
    }

    // A space and a number behind it, and what is left behind that.
    fn number(self) -> Result<(u16, Rest<'l>), usize>
        ensures { Takes self.entry.bytes.now self.entry.column result }
    {
        let rest = self.space()?;
        let word = rest.first_word();
        let Word::Digits(digits, column) = word else {
            return Err(word.column());
        };
        let number = value_of(digits, column)?;
        Ok((number, rest.behind(digits.len())))
    }

    fn end(self) -> Result<(), usize>
        ensures { Ends self.entry.bytes.now self.entry.column result }
    {
        let word = self.first_word();
        let Word::End(_) = word else {
            return Err(word.column());
        };
        Ok(())
    }

    fn one_number(self) -> Result<u16, usize>
        ensures { One self.entry.bytes.now self.entry.column result }
    {
        let (number, rest) = self.number()?;
        rest.end()?;
        Ok(number)
    }

    fn three_numbers(self) -> Result<(u16, u16, u16), usize>
        ensures { Three self.entry.bytes.now self.entry.column result }
    {
        let (first, rest) = self.number()?;
        let (second, rest) = rest.number()?;
        let third = rest.one_number()?;
        Ok((first, second, third))
    }
}

// The call that a line spells, or the column at which it breaks the form. The line comes without its line feed.
pub fn parse(line: &[u8]) -> Result<LineCall, usize>
    ensures { Answers LONGEST line.now result }
{
    let line = Rest {
        bytes: line,
        column: 1,
    };
    let word = line.first_word();
    let Word::Letter(letter, column) = word else {
        return Err(word.column());
    };
    let rest = line.behind(1);
    match letter as char {
        'R' => {
            let numbers = rest.three_numbers();
            numbers.map(|(origin, destination, slot)| LineCall::Request(origin, destination, slot))
        }
        'C' => rest.one_number().map(LineCall::Confirm),
        'W' => rest.one_number().map(LineCall::Withdraw),
        'A' => rest.one_number().map(LineCall::Arrive),
        'L' => rest.end().map(|()| LineCall::List),
        _ => Err(column),
    }
}
