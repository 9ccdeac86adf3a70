// Items between separators: the words of a list.
ghost use Rattle.std.specs.Prelude.{◌≡◌, ◌<◌, ◌≤◌, length, IfOk};
ghost use Rattle.text.specs.Items.{Last, items};
ghost use Rattle.text.specs.Words.{error_of, comma, alone, words_of, numbers, laid, list_of, listed};

use crate::NumberError;

#[derive(Clone, Copy, Debug, PartialEq, Eq)]
pub enum WordError {
    NotWord,
    LargeWord,
    NotKey,
}

impl From<NumberError> for WordError {
    ghost from_gives = { λ number word. word ≡ error_of number };

    fn from(error: NumberError) -> WordError {
        match error {
            NumberError::NoDigits | NumberError::NotDigit => WordError::NotWord,
            NumberError::TooLarge => WordError::LargeWord,
        }
    }
}

// Where the last separator stands, if there is one.
pub fn last(s: &[u8], separator: u8) -> Option<usize>
    ensures { Last separator s.now result }
{
    s.iter().rposition(|b| *b == separator)
}

// The words of one item, behind `0x` those of a key, else a number, put at the start of `out` as far as there is room.
#[tactic(auto, using(crate::proofs::LaidLaws::laid_cut), unfolding(crate::specs::Words::item_of, crate::specs::Words::words_of, crate::specs::Words::numbers, crate::specs::Words::laid))]
fn put(item: &[u8], out: &mut [u64]) -> Result<usize, WordError>
    requires { 0 < length out.old }
    ensures count { result ≡ words_of (alone item.now) (length out.old) 0 }
    ensures image { out.new ≡ laid (numbers (alone item.now)) out.old }
    ensures within { IfOk result (λ count. count ≤ length out.old) }
{
    let Some(digits) = item.strip_prefix(b"0x") else {
        out[0] = crate::decimal(item)?;
        return Ok(1);
    };
    let key = crate::key(digits).ok_or(WordError::NotKey)?;
    let count = out.len().min(key.len());
    out[..count].copy_from_slice(&key[..count]);
    Ok(count)
}

// Words with a comma between two items, put at the start of `out`; what is beyond the room is passed over.
#[tactic(auto, using(crate::proofs::WordsLaws::turn_full))]
pub fn words(s: &[u8], out: &mut [u64]) -> Result<usize, WordError>
    ensures count { result ≡ words_of (items comma s.now) (length out.old) 0 }
    ensures image { out.new ≡ laid (numbers (items comma s.now)) out.old }
{
    let mut count = 0;
    for item in s.split(|b| *b == b',') {
        if count == out.len() {
            break;
        }
        count += put(item, &mut out[count..])?;
    }
    Ok(count)
}

// A word list; `-` is the empty one.
#[tactic(auto, unfolding(crate::specs::Words::list_of, crate::specs::Words::listed))]
pub fn list(s: &[u8], out: &mut [u64]) -> Result<usize, WordError>
    ensures count { result ≡ list_of s.now (length out.old) }
    ensures image { out.new ≡ listed s.now out.old }
{
    if s == b"-".as_slice() {
        return Ok(0);
    }
    words(s, out)
}
