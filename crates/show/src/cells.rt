// What stands in a column besides numbers: signed words, and keys in short.
ghost use Rattle.std.specs.Prelude.{◌≡◌, ◌<◌, Some};
ghost use Rattle.io.specs.Digits.{hex_digit_ascii};
ghost use Rattle.show.specs.Cells.{signed_of, four_bytes_of, short_text};

use positions::Key;
use std::fmt;

// A signed word: from 2^63 on it stands for itself less 2^64.
#[tactic(auto, using(crate::proofs::CellsLaws::signed_is))]
pub fn signed(word: u64) -> i64
    ensures { result ≡ signed_of word }
{
    word.cast_signed()
}

// A hexadecimal digit.
fn hex_digit(d: u8) -> u8
    requires { d < 16 }
    ensures { result ≡ hex_digit_ascii d }
{
    if d < 10 { b'0' + d } else { b'a' + (d - 10) }
}

// The digits of the lowest four bytes of a word, the lowest first.
#[tactic(auto, unfolding(crate::specs::Cells::four_bytes_of))]
fn four_bytes(word: u64) -> [u8; 8]
    ensures { result ≡ four_bytes_of word }
{
    let [a, b, c, d, ..] = word.to_le_bytes();
    [
        hex_digit(a / 16),
        hex_digit(a % 16),
        hex_digit(b / 16),
        hex_digit(b % 16),
        hex_digit(c / 16),
        hex_digit(c % 16),
        hex_digit(d / 16),
        hex_digit(d % 16),
    ]
}

// The lowest four bytes of a word, the lowest first, two hexadecimal digits each.
#[derive(Clone, Copy, Debug, PartialEq, Eq)]
pub struct FourBytes(pub u64);

impl fmt::Display for FourBytes {
    ghost output = { λ bytes. Some (four_bytes_of bytes.0) };

    // The digits in one piece: four of `{:02x}`, tried, take five times as many instructions.
    fn fmt<W: fmt::Write>(&self, f: &mut fmt::Formatter<W>) -> fmt::Result {
        let digits = four_bytes(self.0);
        let Ok(text) = str::from_utf8(&digits) else {
            unreachable!()
        };
        f.write_str(text)
    }
}

// A key in short: its first four bytes and its last four, or `none` for the zero key.
#[derive(Clone, Copy, Debug, PartialEq, Eq)]
pub struct ShortKey(pub Key);

impl fmt::Display for ShortKey {
    ghost output = { λ short. Some (short_text short.0) };

    #[tactic(auto, unfolding(crate::specs::Cells::short_text, crate::specs::Cells::short_key, positions::specs::Key::same_key))]
    fn fmt<W: fmt::Write>(&self, f: &mut fmt::Formatter<W>) -> fmt::Result {
        let key = self.0;
        if key == Key::default() {
            return write!(f, "none");
        }
        let first = FourBytes(key.0);
        let last = FourBytes(key.3 >> 32);
        write!(f, "{first}..{last}")
    }
}
