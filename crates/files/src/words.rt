// Words as eight bytes each, the lowest first.
ghost use Rattle.std.specs.Prelude.{◌≡◌, ◌*◌, length};
ghost use Rattle.files.specs.Words.{words_of, bytes_of};

// What words go through on their way from and to a file.
pub type Buffer = [u8; 65536];

// How many of them at once: as many as the buffer has room for, eight bytes each.
pub const AT_ONCE: usize = 8192;

// The words that the bytes are.
pub fn take_words(s: &[u8], out: &mut [u64])
    requires { length s.now ≡ length out.old * 8 }
    ensures { out.new ≡ words_of s.now (length out.old) }
{
    let (chunks, _) = s.as_chunks::<8>();
    // By index. Tried: the proof over `out.iter_mut().zip(chunks)` does not close, since it has no name for what such a loop leaves in `out`.
    for (i, bytes) in chunks.iter().enumerate() {
        out[i] = u64::from_le_bytes(*bytes);
    }
}

// The bytes of the words.
pub fn give_words(words: &[u64], out: &mut [u8])
    requires { length out.old ≡ length words.now * 8 }
    ensures { out.new ≡ bytes_of words.now (length words.now) }
{
    // By index, as above.
    for (i, word) in words.iter().enumerate() {
        out[i * 8..i * 8 + 8].copy_from_slice(&word.to_le_bytes());
    }
}
