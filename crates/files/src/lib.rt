// An image as a file of little-endian words.
#![tactic(auto)]

mod name;
mod read;
mod second;
mod words;
mod write;

ghost use Rattle.std.specs.Prelude.{◌≡◌, ◌≤◌, length, IfOk};
ghost use Rattle.files.specs.Answers.{LongRefused};
ghost use Rattle.files.specs.Name.{FolderOf};

use file_type::FileType;
use std::fs::{self, OpenFile};
use std::process::Process;
use std::rt::Files;
use text::items;

// Why a load gives no words: the file ends within a word, or can't be read.
#[derive(Clone, Copy, Debug, PartialEq, Eq)]
pub enum LoadError {
    NotWhole,
    CannotRead,
}

impl From<std::io::Error> for LoadError {
    ghost use Rattle.files.specs.declared.LoadError.TheVariants.{CannotRead};

    ghost from_gives = { λ _ error. error ≡ CannotRead };

    fn from(_error: std::io::Error) -> LoadError {
        LoadError::CannotRead
    }
}

// Why a save fails: the file can't be written, and stays as it was; or it is the new one, but its folder's entry may not have reached the disk.
#[derive(Clone, Copy, Debug, PartialEq, Eq)]
pub enum SaveError {
    CannotWrite,
    FolderUnwritten,
}

impl From<std::io::Error> for SaveError {
    ghost use Rattle.files.specs.declared.SaveError.TheVariants.{CannotWrite};

    ghost from_gives = { λ _ error. error ≡ CannotWrite };

    fn from(_error: std::io::Error) -> SaveError {
        SaveError::CannotWrite
    }
}

// The words of a file, at the start of `room`, and how many they are. What is behind the room is not read.
pub fn load(rt: &impl Files, path: &[u8], room: &mut [u64]) -> Result<usize, LoadError>
    ensures { IfOk result (λ count. count ≤ length room.old) }
{
    let path = str::from_utf8(path).map_err(|_error| LoadError::CannotRead)?;
    let mut file = fs::open(rt, path)?;
    let mut buffer = io::large_buffer();
    read::load_all(&mut file, &mut buffer, room)
}

// The name of a path's folder.
fn folder_of(path: &str) -> &str
    ensures { FolderOf path.now result.now }
{
    match items::last(path.as_bytes(), b'/') {
        None => ".",
        Some(0) => "/",
        Some(at) => &path[..at],
    }
}

// The file becomes the words. A regular file is written over, and nothing else. The folder is opened before anything is made, and written through behind the rest.
pub fn save(rt: &impl Files, process: Process, path: &[u8], pool: &[u64]) -> Result<(), SaveError>
    ensures { LongRefused path.now result }
{
    match file_type::file_type(rt, path) {
        FileType::Nothing | FileType::Regular => {}
        FileType::Other => return Err(SaveError::CannotWrite),
    }
    let path = str::from_utf8(path).map_err(|_error| SaveError::CannotWrite)?;
    let folder = fs::open(rt, folder_of(path))?;
    second::save_by(rt, process, path, pool)?;
    folder
        .sync_all()
        .map_err(|_error| SaveError::FolderUnwritten)
}
