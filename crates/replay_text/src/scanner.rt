// Reading a line from left to right. Past the line's end there is no byte. Where a value isn't there, the reading ends.
ghost use Rattle.std.specs.Prelude.{◌≡◌, drop};
ghost use Rattle.replay_text.specs.Bytes.{begins, ends_word, has};
ghost use Rattle.replay_text.specs.Numbers.{minus, plus};

use crate::unexpected::{Expected, Unexpected};

// A number of 64 bits has at most so many digits.
const MOST_DIGITS: u8 = 20;

// The last of some places, 0 where there is none.
fn last_place(places: u8) -> u8
    ensures { result ≡ minus places 1 }
{
    places.saturating_sub(1)
}

#[derive(Drop)]
pub struct Scanner<'a> {
    line: &'a [u8],
    at: usize,
}

impl<'a> Scanner<'a> {
    pub fn new(line: &'a [u8]) -> Self {
        Scanner { line, at: 0 }
    }

    // What was expected here.
    pub fn unexpected(&self, expected: Expected) -> Unexpected {
        Unexpected {
            at: self.at,
            expected,
        }
    }

    // What the line has from here on.
    fn rest(&self) -> &'a [u8]
        ensures { result.now ≡ drop self.now.at self.now.line.now }
    {
        let line = self.line;
        match line.get(self.at..) {
            None => &[],
            Some(rest) => rest,
        }
    }

    // Some bytes further; no place is past the greatest number.
    fn advance(&mut self, bytes: usize)
        ensures place { self.new.at ≡ plus self.old.at bytes }
        ensures line { self.new.line.now ≡ self.old.line.now }
    {
        self.at = self.at.saturating_add(bytes);
    }

    // Whether a byte stands here.
    fn is_next(&self, byte: u8) -> bool
        ensures { result ≡ has self.now.line.now self.now.at byte }
    {
        self.line.get(self.at) == Some(&byte)
    }

    // Whether a word ends before this place: the line's end or a space is here.
    fn ends_word(&self) -> bool
        ensures { result ≡ ends_word self.now.line.now self.now.at }
    {
        match self.line.get(self.at) {
            None => true,
            Some(byte) => *byte == b' ',
        }
    }

    // A minus with no digit after it: something is absent.
    pub fn takes_absent(&mut self) -> bool {
        let absent = match self.rest() {
            [b'-', b'0'..=b'9', ..] => false,
            [b'-', ..] => true,
            _ => false,
        };
        if absent {
            self.advance(1);
        }
        absent
    }

    // ===== texts =====

    // Whether a text stands here, each of its bytes.
    #[tactic(auto, using(crate::proofs::BytesLaws::text_stands))]
    pub fn begins(&self, text: &str) -> bool
        ensures { result ≡ begins self.now.line.now self.now.at text.now }
    {
        self.rest().starts_with(text.as_bytes())
    }

    // A text that may stand here.
    pub fn takes(&mut self, text: &str) -> bool {
        let here = self.begins(text);
        if here {
            self.advance(text.len());
        }
        here
    }

    // The same of a command's name, which a space or the line's end follows.
    pub fn takes_name(&mut self, name: &str) -> bool {
        let start = self.at;
        if self.takes(name) && self.ends_word() {
            return true;
        }
        self.at = start;
        false
    }

    // Whether a command's name stands here.
    pub fn has_name(&mut self, name: &str) -> bool {
        let start = self.at;
        let here = self.takes_name(name);
        self.at = start;
        here
    }

    // A word that a space follows; the space is not taken.
    pub fn takes_word(&mut self, word: &str) -> bool {
        let start = self.at;
        if self.takes(word) && self.is_next(b' ') {
            return true;
        }
        self.at = start;
        false
    }

    // A text of the form, which must stand here.
    pub fn text(&mut self, text: &'static str) -> Result<(), Unexpected> {
        if self.takes(text) {
            return Ok(());
        }
        Err(self.unexpected(Expected::Text(text)))
    }

    // A byte between the parts of a value.
    pub fn byte(&mut self, byte: u8, expected: Expected) -> Result<(), Unexpected> {
        if !self.is_next(byte) {
            return Err(self.unexpected(expected));
        }
        self.advance(1);
        Ok(())
    }

    pub fn takes_byte(&mut self, byte: u8) -> bool {
        let here = self.is_next(byte);
        if here {
            self.advance(1);
        }
        here
    }

    pub fn end(&self) -> Result<(), Unexpected> {
        if self.at < self.line.len() {
            return Err(self.unexpected(Expected::End));
        }
        Ok(())
    }

    // ===== numbers =====

    fn digit(&mut self) -> Option<u64> {
        let digit = match self.line.get(self.at)? {
            byte @ b'0'..=b'9' => *byte - b'0',
            _ => return None,
        };
        self.advance(1);
        Some(digit as u64)
    }

    // A number in decimal. After a first zero no digit is read.
    fn decimal(&mut self) -> Option<u64> {
        let mut value = self.digit();
        for _ in 1..MOST_DIGITS {
            if value == Some(0) {
                break;
            }
            let Some(digit) = self.digit() else {
                break;
            };
            value = with_digit(value, digit);
        }
        value
    }

    // A number in decimal from `least` to `most`.
    pub fn number<T: TryFrom<u64> + PartialOrd + Copy>(
        &mut self,
        least: T,
        most: T,
        expected: Expected,
    ) -> Result<T, Unexpected>
    where
        <T as TryFrom<u64>>::Error: Drop,
    {
        let missing = self.unexpected(expected);
        self.decimal()
            .and_then(|value| T::try_from(value).ok())
            .filter(|value| least <= *value && *value <= most)
            .ok_or(missing)
    }

    // A place of a list that has so many.
    pub fn place(&mut self, places: u8, expected: Expected) -> Result<usize, Unexpected> {
        let place = self.number(0, last_place(places), expected)?;
        Ok(usize::from(place))
    }

    // A number of 32 bits, with a minus where it is below 0. There is no -0.
    pub fn signed(&mut self, expected: Expected) -> Result<i32, Unexpected> {
        let missing = self.unexpected(expected);
        let read = if self.takes_byte(b'-') {
            self.decimal()
                .filter(|magnitude| *magnitude != 0)
                .and_then(negated)
        } else {
            self.decimal().and_then(|value| i32::try_from(value).ok())
        };
        read.ok_or(missing)
    }

    // ===== hexadecimal digits =====

    fn hex_digit(&mut self) -> Option<u8> {
        let digit = match self.line.get(self.at)? {
            byte @ b'0'..=b'9' => *byte - b'0',
            byte @ b'a'..=b'f' => *byte - b'a' + 10,
            _ => return None,
        };
        self.advance(1);
        Some(digit)
    }

    fn hex_byte(&mut self) -> Option<u8> {
        let high = self.hex_digit()?;
        let low = self.hex_digit()?;
        Some((high & 15) << 4 | low)
    }

    // So many bytes, two digits each, from the first on.
    pub fn hex<const N: usize>(&mut self, expected: Expected) -> Result<[u8; N], Unexpected> {
        let missing = self.unexpected(expected);
        let mut bytes = [0; N];
        for byte in bytes.iter_mut() {
            *byte = self.hex_byte().ok_or(missing)?;
        }
        Ok(bytes)
    }
}

fn with_digit(value: Option<u64>, digit: u64) -> Option<u64> {
    value?.checked_mul(10)?.checked_add(digit)
}

fn negated(magnitude: u64) -> Option<i32> {
    i32::try_from(-i64::try_from(magnitude).ok()?).ok()
}
