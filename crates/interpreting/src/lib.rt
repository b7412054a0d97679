//! What tells at which ticks atoms hold, which values terms have and when objects are there: the seam between the
//! recursion over a formula and whatever it is evaluated on.
#![tactic(auto)]

mod interpreter;
mod value_run;

pub use interpreter::Interpreter;
pub use value_run::ValueRun;
