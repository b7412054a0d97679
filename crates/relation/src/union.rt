//! The variables of two lists.

ghost use Rattle.std.specs.Prelude.{◌≡◌, ◌≤◌, ◌+◌, ◌||◌, ◌∷◌, [], ◌++◌, if◌then◌else◌, length};
ghost use Rattle.formula_shape.specs.Sizes.{OneMoreFits};
ghost use Rattle.relation.specs.Frames.{vars_of_both};
ghost use Rattle.relation.specs.Key.{has_id};

use crate::Variables;

/// The variables of both lists, ascending and each once. None of them is past the fourth.
pub(crate) fn vars_of_both(left: &[u8], right: &[u8]) -> Variables
    ensures { result ≡ vars_of_both left.now right.now }
{
    let mut made = Variables::new();
    push_shared(&mut made, 0, left, right);
    push_shared(&mut made, 1, left, right);
    push_shared(&mut made, 2, left, right);
    push_shared(&mut made, 3, left, right);
    made
}

// Adds the variable if it is in one of the lists.
fn push_shared(made: &mut Variables, var: u8, left: &[u8], right: &[u8])
    requires { OneMoreFits made.old }
    ensures pushed { made.new ≡ made.old ++ (if has_id left.now var || has_id right.now var then var ∷ [] else []) }
    ensures few { length made.new ≤ length made.old + 1 }
{
    if left.contains(&var) || right.contains(&var) {
        made.push(var);
    }
}
