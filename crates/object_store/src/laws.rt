//! The limits in numbers, as calls without a body.
ghost use Rattle.std.specs.Prelude.{◌≡◌};
ghost use Rattle.object_store.specs.declared.schema.TheConstants.{CLASS_LIMIT};

/// A store has at most 64 classes.
pub fn limits_in_numbers()
    ensures { CLASS_LIMIT ≡ 64 }
{}
