//! Tests of asking by place, by those public calls that no reply shows: which objects a store tells for an area as they come,
//! move and go and as the clock goes on, and how many of many objects that are spread out are left for a query.
#![tactic(auto)]

#[cfg(test)]
mod asked;
#[cfg(test)]
mod leaving;
#[cfg(test)]
mod meeting;
#[cfg(test)]
mod moving;
#[cfg(test)]
mod owned;
#[cfg(test)]
mod reaching;
#[cfg(test)]
mod spread;
#[cfg(test)]
mod stores;
