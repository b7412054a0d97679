//! The shape that the trees of formulas have, with everything by its name and by its number alike, and the
//! limits of queries. `specs/` has the tree, its folds, its sizes and a code for it. The calls below have
//! no body: the contract of each is a law, or what the definitions give for a small formula.
#![tactic(auto)]

mod limits;

ghost use Rattle.std.specs.Prelude.{◌≡◌, ◌^◌, ◌↔◌, Bool, false};
ghost use Rattle.formula_shape.specs.Example.{ArePartsGathered, IsMeasured};
ghost use Rattle.formula_shape.specs.Shape.{Shape, fold_types};
ghost use Rattle.formula_shape.specs.ShapeCode.{nodes_of, shape_of};
ghost use Rattle.formula_shape.specs.Sizes.{has_part};

pub use limits::{DEPTH_LIMIT, FACTOR_LIMIT, NESTING_LIMIT, NODE_LIMIT, OBJECT_LIMIT, TIMES_LIMIT};

/// The limits, in numbers.
pub fn limits_in_numbers()
    ensures objects { OBJECT_LIMIT ≡ 4 }
    ensures nesting { NESTING_LIMIT ≡ 2 }
    ensures factors { FACTOR_LIMIT ≡ 16 }
    ensures times { TIMES_LIMIT ≡ 10 ^ 6 }
    ensures nodes { NODE_LIMIT ≡ 256 }
    ensures depth { DEPTH_LIMIT ≡ 32 }
{}

/// The nodes, the depth, the nesting of assignments, and whether there is a NOT.
pub fn a_small_formula_is_measured()
    ensures { IsMeasured }
{}

/// What is said of atoms and assignments together goes through all of them, in the order in which a
/// formula is written.
pub fn a_small_formula_is_gone_through()
    ensures { ArePartsGathered }
{}

/// No part of a formula passes exactly where each atom fails, and what each assignment binds.
pub fn no_part_passes_where_each_fails<A, B>()
    ensures { (p : A → Bool) (q : B → Bool) (f : Shape A B) → (has_part p q f ≡ false)
        ↔ fold_types (λ a. p a ≡ false) (λ b. q b ≡ false) f }
{}

/// The list of the nodes of a formula gives the formula back.
pub fn nodes_give_the_formula_back<A, B>()
    ensures { (f : Shape A B) → shape_of (nodes_of f) ≡ f }
{}
