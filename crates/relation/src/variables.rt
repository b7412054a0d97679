//! Lists of object variables.

ghost use Rattle.std.specs.Prelude.{◌≡◌, ◌∷◌, [], ◌++◌, length};
ghost use Rattle.formula_shape.specs.Sizes.{FitInQuery, OneMoreFits};

use formula::OBJECT_LIMIT;
use std::marker::Model;

// At most four object variables, by their numbers. A contract sees the list of the numbers.
#[derive(Clone, Copy)]
pub(crate) struct Variables {
    // Those past the length are 0, so that a list has one form alone.
    vars: [u8; OBJECT_LIMIT],
    len: u8,
}

impl Model for Variables {
    ghost use Rattle.std.specs.Prelude.{List, ℕ, length, take};
    ghost use Rattle.exact.proofs.PaddedLemmas.{length-front, padded-front};
    ghost use Rattle.exact.specs.Padded.{IsPadded, padded};
    ghost use Rattle.formula_shape.specs.declared.limits.TheConstants.{OBJECT_LIMIT};

    ghost Value = { List ℕ };

    ghost view = { λ a. take a.len a.vars };

    ghost invariant = { λ a. IsPadded 0 OBJECT_LIMIT a.vars a.len };

    ghost inverse = { λ vars. record { vars = padded 0 OBJECT_LIMIT vars; len = length vars } };

    ghost inverse_ok = { λ a h i. record {
      vars = padded-front 0 OBJECT_LIMIT a.vars a.len h i;
      len = length-front 0 OBJECT_LIMIT a.vars a.len h i;
    } };
}

impl Variables {
    // No variable.
    pub(crate) fn new() -> Variables
        ensures { result ≡ [] }
    {
        Variables {
            vars: [0; OBJECT_LIMIT],
            len: 0,
        }
    }

    // Adds a variable at the end.
    pub(crate) fn push(&mut self, var: u8)
        requires { OneMoreFits self.old }
        ensures { self.new ≡ self.old ++ var ∷ [] }
    {
        self.vars[self.len as usize] = var;
        self.len += 1;
    }

    // These variables.
    pub(crate) fn of(vars: &[u8]) -> Variables
        requires { FitInQuery vars.now }
        ensures { result ≡ vars.now }
    {
        let mut made = Variables::new();
        for var in vars {
            made.push(*var);
        }
        made
    }

    // The variables, in order.
    #[inline]
    pub(crate) fn vars(&self) -> &[u8]
        ensures value { result.now ≡ self.now }
        ensures few { FitInQuery self.now }
    {
        &self.vars[..self.len as usize]
    }
}
