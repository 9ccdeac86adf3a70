// The second name of a file: its path, the process's number and a number of its own.
ghost use Rattle.std.specs.Prelude.{◌≡◌, ◌+◌, ◌<◌, ◌≤◌, ◌++◌, length, MatchOption, IsSome};
ghost use Rattle.files.specs.Name.{dotted, second_name};

use arrayvec::ArrayString;
use itoa::Buffer;

// A path has 4,095 bytes at most.
pub type Name = ArrayString<4095>;

// Puts a dot and a number in decimal behind a name, if they have room.
#[tactic(auto, unfolding(crate::specs::Name::dotted))]
fn push_dotted(name: &mut Name, number: u64) -> Option<()>
    ensures { MatchOption result (4095 < length name.old.bytes + length (dotted number)) (λ _. name.new.bytes ≡ name.old.bytes ++ dotted number) }
{
    name.try_push_str(".").ok()?;
    name.try_push_str(Buffer::new().format(number)).ok()
}

// The second name of a path, if it has room.
#[tactic(auto, unfolding(crate::specs::Name::second_name, crate::specs::Name::ending_of))]
pub fn second_name(path: &str, process: u64, number: u64) -> Option<Name>
    ensures cases { MatchOption result (4095 < length (second_name path.now process number)) (λ name. name.bytes ≡ second_name path.now process number) }
    ensures fits { IsSome result → length (second_name path.now process number) ≤ 4095 }
{
    let mut name = Name::new();
    name.try_push_str(path).ok()?;
    push_dotted(&mut name, process)?;
    push_dotted(&mut name, number)?;
    name.try_push_str(".new").ok()?;
    Some(name)
}
