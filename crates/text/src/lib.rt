// Fields of a journal, read from their bytes.
#![tactic(auto)]

ghost use Rattle.std.specs.Prelude.{◌≡◌, ◌<◌, length, IfSome};
ghost use Rattle.text.specs.Decimal.{next_of, number_of};
ghost use Rattle.text.specs.Hex.{nibble_of, pair_of, all_hex, bytes_of, spelled};
ghost use Rattle.text.specs.Key.{key_of};

pub mod items;

#[derive(Clone, Copy, Debug, PartialEq, Eq)]
pub enum NumberError {
    NoDigits,
    NotDigit,
    TooLarge,
}

// The number with one more digit behind it.
#[tactic(auto, unfolding(crate::specs::Decimal::next_of))]
fn next(number: u64, digit: u8) -> Result<u64, NumberError>
    ensures { result ≡ next_of number digit }
{
    if !digit.is_ascii_digit() {
        return Err(NumberError::NotDigit);
    }
    let tens = number.checked_mul(10).ok_or(NumberError::TooLarge)?;
    tens.checked_add(u64::from(digit - b'0'))
        .ok_or(NumberError::TooLarge)
}

// The number that the bytes spell in decimal.
#[tactic(auto, unfolding(crate::specs::Decimal::onward, crate::specs::Decimal::number_of))]
pub fn decimal(s: &[u8]) -> Result<u64, NumberError>
    ensures { result ≡ number_of s.now }
{
    if s.is_empty() {
        return Err(NumberError::NoDigits);
    }
    let mut number = 0;
    for digit in s {
        number = next(number, *digit)?;
    }
    Ok(number)
}

// The value of a hexadecimal digit in either case. An arm for each digit makes a table of them: with three ranges, tried, a line with a message of 1,024
// rows takes four times as long, since no processor can guess in which of them a digit is; without `inline` twice as long.
#[tactic(auto, unfolding(crate::specs::Hex::nibble_of))]
#[inline]
pub fn nibble(b: u8) -> Option<u64>
    ensures value { result ≡ nibble_of b }
    ensures below { IfSome result (λ value. value < 16) }
{
    let value = match b {
        b'0' => 0,
        b'1' => 1,
        b'2' => 2,
        b'3' => 3,
        b'4' => 4,
        b'5' => 5,
        b'6' => 6,
        b'7' => 7,
        b'8' => 8,
        b'9' => 9,
        b'a' | b'A' => 10,
        b'b' | b'B' => 11,
        b'c' | b'C' => 12,
        b'd' | b'D' => 13,
        b'e' | b'E' => 14,
        b'f' | b'F' => 15,
        _ => return None,
    };
    Some(value)
}

// Whether every byte is a hexadecimal digit.
#[tactic(auto, unfolding(crate::specs::Hex::all_hex))]
pub fn all_hex(s: &[u8]) -> bool
    ensures { result ≡ all_hex s.now }
{
    s.iter().all(|b| nibble(*b).is_some())
}

// The byte that two hexadecimal digits spell.
#[tactic(auto, unfolding(crate::specs::Hex::pair_of))]
pub fn pair(high: u8, low: u8) -> Option<u8>
    ensures { result ≡ pair_of high low }
{
    let high = nibble(high)?;
    let low = nibble(low)?;
    Some((high * 16 + low) as u8)
}

// A key of 64 hexadecimal digits, as four words, each with its lowest byte first.
#[tactic(auto, using(crate::proofs::KeyLaws::key_none), unfolding(crate::specs::Key::key_of))]
pub fn key(s: &[u8]) -> Option<[u64; 4]>
    ensures { result ≡ key_of s.now }
{
    if s.len() != 64 {
        return None;
    }
    let mut key = [0; 32];
    bytes(s, &mut key)?;
    let words = key.as_chunks().0;
    Some([
        u64::from_le_bytes(words[0]),
        u64::from_le_bytes(words[1]),
        u64::from_le_bytes(words[2]),
        u64::from_le_bytes(words[3]),
    ])
}

// Hexadecimal digits as bytes, put at the start of `out`; what is beyond the room is passed over. Written by index. Tried: the
// proof over `out.iter_mut().zip(..)` does not close, since the check has no name for what such a loop has written so far.
#[tactic(auto, using(std::proofs::lemmas::List::take_min, crate::proofs::HexLaws::hex_pair), unfolding(crate::specs::Hex::bytes_of, crate::specs::Hex::even_of, crate::specs::Hex::spelled, crate::specs::Hex::stored, crate::specs::Hex::byte_at))]
pub fn bytes(s: &[u8], out: &mut [u8]) -> Option<usize>
    ensures count { result ≡ bytes_of s.now (length out.old) }
    ensures image { out.new ≡ spelled result s.now out.old }
{
    let digits = &s[..(out.len() * 2).min(s.len())];
    if digits.len() % 2 != 0 || !all_hex(digits) {
        return None;
    }
    let pairs = digits.as_chunks::<2>().0;
    for (i, [high, low]) in pairs.iter().enumerate() {
        out[i] = pair(*high, *low).unwrap();
    }
    Some(pairs.len())
}
