// Keys, stake positions and their states.
#![tactic(auto)]

ghost use Rattle.std.specs.Prelude.{◌≡◌};
ghost use Rattle.positions.specs.Positions.{key_from};

// A 32-byte key as four little-endian words, as the image holds it: the Rust's Pubkey. Its default is the zero key.
#[derive(Clone, Copy, Debug, Default, PartialEq, Eq)]
pub struct Key(pub u64, pub u64, pub u64, pub u64);

impl From<[u64; 4]> for Key {
    ghost from_gives = { λ words key. key ≡ key_from words 0 };

    fn from(words: [u64; 4]) -> Key {
        Key(words[0], words[1], words[2], words[3])
    }
}

pub mod list;
pub mod position;
