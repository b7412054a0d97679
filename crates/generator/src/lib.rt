//! The lines of a workload, by a number: a fleet of cars that report their motions in rounds, regions, and
//! three watched queries. The same number gives the same lines.
#![tactic(auto)]

mod draws;
mod generator;
mod laws;
mod plan;
mod writing;

pub use generator::Generator;
pub use laws::as_many_lines_by_each_number;
pub use plan::{CARS, LINES, REGIONS, ROUNDS, UPDATES, WATCHES};
