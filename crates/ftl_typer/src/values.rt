//! Value variables, which assignments bind.
ghost use Rattle.std.specs.Prelude.{◌≡◌, ◌<◌, ◌++◌, ◌∷◌, [], length};
ghost use Rattle.std.specs.List.{find, position};
ghost use Rattle.std.specs.Option.{option_map};
ghost use Rattle.std.specs.Str.{bytes_eq};
ghost use Rattle.formula_shape.specs.declared.limits.TheConstants.{NESTING_LIMIT};
ghost use Rattle.ftl_typer.specs.Scope.{is_kind_of_text};
ghost use Rattle.ftl_typer.specs.Values.{assigned_in, found_at};

use fixed_point::Word;
use formula::ValueKind;

/// Whether the values of a kind are texts.
pub fn is_text(kind: ValueKind) -> bool
    ensures { result ≡ is_kind_of_text kind }
{
    match kind {
        ValueKind::Number => false,
        ValueKind::Text => true,
    }
}

/// A value variable: its name, and the kind and the bound of the term whose value it has, in thousandths.
#[derive(Clone, Copy, Debug)]
pub struct Assigned {
    pub name: Word,
    pub kind: ValueKind,
    pub bound: u64,
}

/// The value variables in whose scope one stands, the outermost first. Assignments are nested at most twice.
#[derive(Clone, Copy, Debug)]
pub enum Values {
    Empty,
    One(Assigned),
    Two(Assigned, Assigned),
}

impl Values {
    /// With one more value variable inside of these.
    pub fn with(self, inner: Assigned) -> Values
        requires { length (assigned_in self) < NESTING_LIMIT }
        ensures { assigned_in result ≡ assigned_in self ++ inner ∷ [] }
    {
        match self {
            Values::Empty => Values::One(inner),
            Values::One(outer) => Values::Two(outer, inner),
            Values::Two(_, _) => unreachable!(),
        }
    }

    /// How many there are.
    pub fn len(&self) -> u8
        ensures { result ≡ length (assigned_in self.now) }
    {
        match self {
            Values::Empty => 0,
            Values::One(_) => 1,
            Values::Two(_, _) => 2,
        }
    }

    /// The depth of the value variable of a name, and the value variable.
    pub fn find(&self, name: &Word) -> Option<(u8, Assigned)>
        ensures depth { option_map (λ found. found.0) result ≡ position (λ v. bytes_eq name.now v.name) (assigned_in self.now) }
        ensures value { option_map (λ found. found.1) result ≡ find (λ v. bytes_eq name.now v.name) (assigned_in self.now) }
    {
        match self {
            Values::Empty => None,
            Values::One(first) => found_at(0, first, name),
            Values::Two(first, second) => match found_at(0, first, name) {
                Some(found) => Some(found),
                None => found_at(1, second, name),
            },
        }
    }
}

/// A depth and its value variable, where that has the name.
fn found_at(depth: u8, value: &Assigned, name: &Word) -> Option<(u8, Assigned)>
    ensures { result ≡ found_at depth value.now name.now }
{
    if *name == value.name {
        Some((depth, *value))
    } else {
        None
    }
}
