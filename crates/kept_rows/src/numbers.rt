//! The number of a binding and the places of a number.
ghost use Rattle.std.specs.Prelude.{◌≡◌, ◌<◌, ◌≤◌, ◌+◌, ◌*◌, ◌↔◌, ℕ, IsTrue, length, slice_get, slice_index, IfSome, IfNone};
ghost use Rattle.std.specs.Option.{SomeIff};
ghost use Rattle.kept_rows.specs.Numbers.{ArePlaces, IsBindingCount, number_of, places_of, size_of};

use crate::binding::{BINDING_LIMIT, Variable};

/// How many numbers the bindings of these variables may have: the product of the capacities. None exactly where
/// it is above [`BINDING_LIMIT`].
pub fn size_within(variables: &[Variable]) -> Option<u32>
    ensures { SomeIff result (size_of variables.now ≤ BINDING_LIMIT) (size_of variables.now) }
{
    match variables.split_first() {
        Some((first, later)) => product_within(first.capacity, size_within(later)?),
        None => Some(1),
    }
}

// The product, if it is within the limit.
fn product_within(capacity: u32, size: u32) -> Option<u32>
    requires size { size ≤ BINDING_LIMIT }
    ensures { SomeIff result (capacity * size ≤ BINDING_LIMIT) (capacity * size) }
{
    let product = u64::from(capacity) * u64::from(size);
    if product > u64::from(BINDING_LIMIT) {
        return None;
    }
    Some(product as u32)
}

/// How many numbers the bindings of these variables may have: the product of the capacities.
pub fn size(variables: &[Variable]) -> u32
    requires { IsBindingCount (size_of variables.now) }
    ensures value { result ≡ size_of variables.now }
    ensures some { 0 < result }
{
    match size_within(variables) {
        Some(size) => size,
        None => unreachable!(),
    }
}

/// The number of the binding of these places, one below its capacity for each variable.
pub fn number(variables: &[Variable], places: &[u32]) -> u32
    requires size { IsBindingCount (size_of variables.now) }
    requires places { ArePlaces variables.now places.now }
    ensures value { result ≡ number_of variables.now places.now }
    ensures below { result < size_of variables.now }
{
    match (variables.split_first(), places.split_first()) {
        (Some((_, later)), Some((place, rest))) => place * size(later) + number(later, rest),
        _ => 0,
    }
}

/// The place of one variable, counted from 0, in the binding of a number.
pub fn place(variables: &[Variable], number: u32, at: usize) -> u32
    requires size { IsBindingCount (size_of variables.now) }
    requires at { at < length variables.now }
    ensures { slice_get (places_of variables.now number) at ≡ Some result }
{
    match variables.split_first() {
        Some((_, later)) => {
            let width = size(later);
            if at == 0 {
                number / width
            } else {
                place(later, number % width, at - 1)
            }
        }
        None => unreachable!(),
    }
}
