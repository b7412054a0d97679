//! Queries and formulas by number: their trees, the object variables in them, bindings of objects, values
//! that assignments bind, how large a term's value can be, how far ahead a formula sees, and the kinds of
//! values and of queries that stay.
#![tactic(auto)]

mod binding;
mod bound;
mod kind;
mod laws;
mod limits;
mod reach;
mod tree;
mod value;
mod var_set;

pub use binding::Binding;
pub use bound::bound_of;
pub use fixed_point::Items;
pub use formula_shape::{
    DEPTH_LIMIT, FACTOR_LIMIT, NESTING_LIMIT, NODE_LIMIT, OBJECT_LIMIT, TIMES_LIMIT,
};
pub use kind::QueryKind;
pub use laws::a_resolved_formula_has_the_variables_that_there_are;
pub use limits::{DYNAMIC_BOUND, QUERY_LIMIT, TIME_BOUND};
pub use reach::reach_of;
pub use tree::{ClassNo, RAtom, RFormula, RQuery, RSigned, RTerm, RUnit};
pub use value::{Env, Value, ValueKind};
pub use var_set::{VarSet, free, free_in_atom, free_in_term};
