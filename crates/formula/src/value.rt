//! Values of terms, and those that assignments bind.

ghost use Rattle.std.specs.Prelude.{◌≡◌};
ghost use Rattle.formula.specs.Value.{no_values, value_in, with_value};

use fixed_point::{Fix, Word};

/// The value of a term at a tick.
#[derive(Clone, Copy, Debug, PartialEq, Eq)]
pub enum Value {
    /// A number of thousandths.
    Num(Fix),
    Text(Word),
}

/// What the values of a term are.
#[derive(Clone, Copy, Debug, PartialEq, Eq)]
pub enum ValueKind {
    Number,
    Text,
}

/// The values that the assignments around a formula bind: `first` at depth 0 and `second` at depth 1.
#[derive(Clone, Copy, Debug, PartialEq, Eq)]
pub struct Env {
    pub first: Option<Value>,
    pub second: Option<Value>,
}

impl Env {
    /// No value is bound.
    pub fn new() -> Env
        ensures { result ≡ no_values }
    {
        Env {
            first: None,
            second: None,
        }
    }

    /// These values, with one at this depth, which is 0 or 1; at another depth nothing is bound.
    pub fn with(&self, depth: u8, value: Value) -> Env
        ensures { result ≡ with_value self.now depth value }
    {
        match depth {
            0 => Env {
                first: Some(value),
                second: self.second,
            },
            1 => Env {
                first: self.first,
                second: Some(value),
            },
            _ => *self,
        }
    }

    /// The value at this depth, if one is bound there.
    pub fn get(&self, depth: u8) -> Option<Value>
        ensures { result ≡ value_in self.now depth }
    {
        match depth {
            0 => self.first,
            1 => self.second,
            _ => None,
        }
    }
}
