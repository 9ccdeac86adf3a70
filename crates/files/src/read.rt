// Words from an open file.
ghost use Rattle.std.specs.Prelude.{◌≤◌, length, IfOk};

use crate::{LoadError, words};
use std::io::{self, Read};

// Reads until the buffer is full, the file ends or a read fails. The loop of load_all is alike; one for both is no plainer: it would be given the next
// part as a closure, with a `requires` on what that counts.
fn read_full(file: &mut impl Read, buffer: &mut [u8]) -> io::Result<usize>
    ensures { IfOk result (λ count. count ≤ length buffer.old) }
{
    let mut done = 0;
    // A `while`, since how far it goes depends on what each read brings.
    while done < buffer.len() {
        let count = file.read(&mut buffer[done..])?;
        if count == 0 {
            break;
        }
        done += count;
    }
    Ok(done)
}

// The next words of a file, at the start of `rest`, and how many they are; none at its end.
fn load_some(
    file: &mut impl Read,
    buffer: &mut words::Buffer,
    rest: &mut [u64],
) -> Result<usize, LoadError>
    ensures { IfOk result (λ count. count ≤ length rest.old) }
{
    let most = rest.len().min(words::AT_ONCE) * 8;
    let read = read_full(file, &mut buffer[..most])?;
    if read % 8 != 0 {
        return Err(LoadError::NotWhole);
    }
    let count = read / 8;
    words::take_words(&buffer[..read], &mut rest[..count]);
    Ok(count)
}

// The words of an open file, at the start of `room`, and how many they are: until the room is full or the file ends.
pub fn load_all(
    file: &mut impl Read,
    buffer: &mut words::Buffer,
    room: &mut [u64],
) -> Result<usize, LoadError>
    ensures { IfOk result (λ count. count ≤ length room.old) }
{
    let mut done = 0;
    // A `while`, since the next words go behind those that came, however many they were.
    while done < room.len() {
        let count = load_some(&mut *file, &mut *buffer, &mut room[done..])?;
        if count == 0 {
            break;
        }
        done += count;
    }
    Ok(done)
}
