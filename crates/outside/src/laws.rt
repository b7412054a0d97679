//! Laws of the definitions, as calls without a body.

ghost use Rattle.std.specs.Prelude.{◌≡◌, ◌^◌};
ghost use Rattle.outside.specs.declared.dir_shelf.TheConstants.{MAX_LEN};

/// The limit of this crate by its number.
pub fn limits_in_numbers()
    ensures { MAX_LEN ≡ 2 ^ 29 }
{}
