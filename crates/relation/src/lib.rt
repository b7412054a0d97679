//! Relations: for each binding of objects to variables the ticks at which something holds, and what formulas do
//! with them.
#![tactic(auto)]

mod changes;
mod columns;
mod domains;
mod entries;
mod few;
mod next;
mod operation;
mod operators;
mod part;
mod projection;
mod reads;
mod row;
mod search;
mod table;
mod union;
mod variables;
mod walk;

pub use domains::Domains;
pub use few::Few;
pub use row::Row;
pub use table::Relation;
use variables::Variables;
