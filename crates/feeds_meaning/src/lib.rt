//! What several users who share one world hear: what one user hears of what concerns this user alone, and all users
//! together, line by line. The definitions stand in `specs/`, and nothing here runs.
#![tactic(auto)]

mod examples;
mod laws;
mod limits;

pub use examples::{one_user_hears, users_share_a_world};
pub use laws::users_hear_their_views;
pub use limits::{DATA_LINES_LIMIT, QUERY_LINES_LIMIT, USERS_LIMIT, limits_in_numbers};
