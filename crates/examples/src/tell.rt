// What a line of the output says of an answer and of an image.
ghost use Rattle.std.specs.Prelude.{◌≡◌, ◌↔◌, IsTrue};

use crate::given::Image;
use types::refusals::Refusal;

// The refusal's number, or 0.
pub fn number_of<T>(answer: &Result<T, Refusal>) -> u64 {
    match answer {
        Ok(_) => 0,
        Err(refusal) => u64::from(*refusal),
    }
}

// Whether two images have the same words.
pub fn same(before: &Image, after: &Image) -> bool
    ensures { IsTrue result ↔ (before.now ≡ after.now) }
{
    before == after
}

// What a call did to the image.
pub fn change(before: &Image, after: &Image) -> &'static str {
    if same(before, after) {
        "unchanged"
    } else {
        "changed"
    }
}
