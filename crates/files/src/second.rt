// A file that is written under a second name, and then takes the place of the first.
ghost use Rattle.std.specs.Prelude.{◌≡◌, IfSome};
ghost use Rattle.files.specs.Answers.{LongRefused};
ghost use Rattle.files.specs.Name.{number_of, SecondMade};

use crate::name::{self, Name};
use crate::{SaveError, write};
use std::fs::{self, OpenOptions};
use std::process::Process;
use std::rt::Files;

// A new file, its name, and the number in that, which SecondMade alone reads: by it the name is told, and not only that there is one. It holds
// an open file, which is not copied or compared.
#[derive(Drop)]
struct Second<F> {
    file: F,
    name: Name,
    number: u64,
}

// A process's number; a negative one, which no process has, counts as 0.
fn number_of(pid: i32) -> u64
    ensures { result ≡ number_of pid }
{
    u64::try_from(pid).unwrap_or(0)
}

// Makes a file anew, for writing alone.
fn create<R: Files>(rt: &R, path: &str) -> std::io::Result<R::File> {
    OpenOptions::new()
        .write(true)
        .create_new(true)
        .open(rt, path)
}

// Makes a file under the first of a hundred second names that is not taken.
fn make<R: Files>(rt: &R, path: &str, process: u64) -> Option<Second<R::File>>
    ensures { IfSome result (SecondMade path.now process) }
{
    for number in 0..100 {
        let name = name::second_name(path, process, number)?;
        if let Ok(file) = create(rt, &name) {
            return Some(Second { file, name, number });
        }
    }
    None
}

// Writes the words to the second file, which then becomes the file `path`. Where a step fails, the second is removed and `path` stays.
fn save_as<R: Files>(
    rt: &R,
    second: Second<R::File>,
    path: &str,
    pool: &[u64],
) -> std::io::Result<()> {
    let Second { mut file, name, .. } = second;
    let mut buffer = io::large_buffer();
    let written = write::save_all(&mut file, &mut buffer, pool);
    drop(file);
    let saved = written.and_then(|()| fs::rename(rt, name.as_str(), path));
    if saved.is_err() {
        let _ = fs::remove_file(rt, name.as_str());
    }
    saved
}

// Saves by way of a second name.
#[tactic(auto, using(crate::proofs::NameLaws::name_long))]
pub fn save_by(rt: &impl Files, process: Process, path: &str, pool: &[u64]) -> Result<(), SaveError>
    ensures { LongRefused path.now result }
{
    let number = number_of(std::process::id(process).cast_signed());
    let second = make(rt, path, number).ok_or(SaveError::CannotWrite)?;
    save_as(rt, second, path, pool)?;
    Ok(())
}
