//! The names that the language gives to coordinates.
ghost use Rattle.std.specs.Prelude.{◌≡◌, codes};

use fixed_point::Word;

pub fn x_name() -> Word
    ensures { result ≡ codes "x" }
{
    Word::of(b"x").unwrap()
}

pub fn y_name() -> Word
    ensures { result ≡ codes "y" }
{
    Word::of(b"y").unwrap()
}
