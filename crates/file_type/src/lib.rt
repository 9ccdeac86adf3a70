// What stands at a path, as lstat tells it.
#![tactic(auto)]

ghost use Rattle.std.specs.Prelude.{◌≡◌, false};
ghost use Rattle.file_type.specs.Path.{is_path};
ghost use Rattle.file_type.specs.Told.{told_of};

use std::fs::Metadata;
use std::rt::Files;
use std::{fs, io};

// What a path's bytes are below, the 0 that the system has behind them counted.
const PATH_MAX: usize = 4096;

// The error where nothing stands at a path, by its number as the definition has it (`failed_of`): another error may be of the kind `NotFound` too.
const ENOENT: i32 = 2;

// What stands at a path; a link is not followed.
#[derive(Clone, Copy, Debug, PartialEq, Eq)]
pub enum FileType {
    Nothing,
    Regular,
    Other,
}

// Whether the system can be handed all of the path, and a 0 behind it that ends it.
#[tactic(auto, unfolding(crate::specs::Path::is_path))]
fn is_path(path: &[u8]) -> bool
    ensures { result ≡ is_path path.now }
{
    path.len() < PATH_MAX && path.iter().all(|byte| *byte != 0)
}

// What a look at a path comes to.
#[tactic(auto, unfolding(crate::specs::Told::told_of))]
fn told(found: io::Result<Metadata>) -> FileType
    ensures { result ≡ told_of found }
{
    match found {
        Ok(metadata) if metadata.is_file() => FileType::Regular,
        Err(error) if error.raw_os_error() == Some(ENOENT) => FileType::Nothing,
        _ => FileType::Other,
    }
}

// What stands at the path. `Other` also where the system can't tell, and where the path has a 0 byte or more than 4,095 bytes, or is no UTF-8.
pub fn file_type(rt: &impl Files, path: &[u8]) -> FileType
    ensures { is_path path.now ≡ false → result ≡ FileType.Other }
{
    if !is_path(path) {
        return FileType::Other;
    }
    let Ok(text) = str::from_utf8(path) else {
        return FileType::Other;
    };
    told(fs::symlink_metadata(rt, text))
}
