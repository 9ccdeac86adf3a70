// What a journal has a name for.
ghost use Rattle.std.specs.Prelude.{◌≡◌, ℕ, List};
ghost use Rattle.std.specs.List.{find};
ghost use Rattle.std.specs.Str.{bytes_eq};

pub trait Named {
    ghost name_of: { Self → List ℕ };

    fn name(self) -> &'static str
        ensures { result.now ≡ name_of self };
}

// The first of some values that has a name.
pub fn with_name<T: Named + Copy>(values: &[T], name: &[u8]) -> Option<T>
    ensures { result ≡ find (λ value. bytes_eq (T.name_of value) name.now) values.now }
{
    values
        .iter()
        .copied()
        .find(|value| value.name().as_bytes() == name)
}
