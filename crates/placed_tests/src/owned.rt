//! Values of many parts, which are handed on to be let go: a function that lets one go itself names all its parts once for
//! each way out, so its proof is long.
ghost use Rattle.std.specs.Prelude.{◌≡◌, IfOk};

use std::test::Fail;

// The value, where what was done with it went well.
pub(crate) fn kept<T: Drop>(value: T, done: Result<(), Fail>) -> Result<T, Fail>
    ensures { IfOk result (λ kept. kept ≡ value) }
{
    done?;
    Ok(value)
}

// What was found with a value that is let go.
pub(crate) fn spent<T: Drop, R>(value: T, found: R) -> R
    ensures { result ≡ found }
{
    drop(value);
    found
}
