// A key's words as numbers that compare as its bytes do.
ghost use Rattle.std.specs.Prelude.{◌≡◌};
ghost use Rattle.publisher_caps.specs.Key.{number_of, number_by};

use positions::Key;

// The four words of a key as big-endian numbers, the highest first, compared in this order.
#[derive(Clone, Copy, Debug, Default, PartialEq, Eq, PartialOrd, Ord)]
pub struct KeyNumber(pub u64, pub u64, pub u64, pub u64);

impl From<Key> for KeyNumber {
    ghost from_gives = { λ key r. number_by r ≡ number_of key };

    #[tactic(auto, using(crate::proofs::KeyLaws::swapped_word))]
    fn from(key: Key) -> KeyNumber {
        KeyNumber(
            key.0.swap_bytes(),
            key.1.swap_bytes(),
            key.2.swap_bytes(),
            key.3.swap_bytes(),
        )
    }
}
