// Words to an open file.
use crate::words;
use std::fs::OpenFile;
use std::io::{Result, Write};

// Writes all words by way of a buffer, and sees that they are kept.
pub fn save_all<F: Write + OpenFile>(
    file: &mut F,
    buffer: &mut words::Buffer,
    pool: &[u64],
) -> Result<()> {
    for part in pool.chunks(words::AT_ONCE) {
        let bytes = &mut buffer[..part.len() * 8];
        words::give_words(part, bytes);
        file.write_all(bytes)?;
    }
    file.sync_all()
}
