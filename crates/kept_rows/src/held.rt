//! The numbers of the bindings that hold the object that was written.
ghost use Rattle.std.specs.Prelude.{◌≡◌, ◌<◌, ◌+◌, ◌*◌, ◌^◌, ◌==◌, ◌&&◌, ◌||◌, ◌∷◌, ◌++◌, ℕ, [], true, false, nat_lt, All, length, map, if◌then◌else◌, IfOk, OnOk};
ghost use Rattle.tick_set.specs.TickList.{has};
ghost use Rattle.kept_rows.specs.Numbers.{IsBindingCount, counts, holds_written, size_of};
ghost use Rattle.kept_rows.specs.Rising.{AscendsWithin};

use crate::binding::Variable;
use crate::numbers::size;
use std::alloc::{AllocError, Global};

/// The numbers of the bindings that hold the object that was written, ascending and each once. No list that is
/// made on the way is longer.
pub fn held_numbers(alloc: Global, variables: &[Variable]) -> Result<Vec<u32>, AllocError>
    requires { IsBindingCount (size_of variables.now) }
    ensures rising { IfOk result (λ r. AscendsWithin 0 (size_of variables.now) r.items) }
    ensures has { IfOk result (λ r. (c : ℕ) → has r.items c ≡ (counts variables.now c && holds_written variables.now c)) }
{
    let numbers = numbers_of(alloc, variables, false)?;
    Ok(numbers.held)
}

// The numbers of bindings.
#[derive(Drop)]
struct Numbers {
    // Those of all bindings, where they are needed.
    all: Vec<u32>,
    // Those that hold the object that was written.
    held: Vec<u32>,
}

// The numbers of the bindings of these variables. All of the later variables are made only where an earlier one
// may be the object that was written: else one update would visit all places of another class.
fn numbers_of(alloc: Global, variables: &[Variable], needs_all: bool) -> Result<Numbers, AllocError>
    requires { IsBindingCount (size_of variables.now) }
    ensures all_rising { IfOk result (λ n. AscendsWithin 0 (size_of variables.now) n.all.items) }
    ensures held_rising { IfOk result (λ n. AscendsWithin 0 (size_of variables.now) n.held.items) }
    ensures all { IfOk result (λ n. needs_all ≡ true → (c : ℕ) → has n.all.items c ≡ counts variables.now c) }
    ensures held { IfOk result (λ n. (c : ℕ) → has n.held.items c ≡ (counts variables.now c && holds_written variables.now c)) }
{
    let Some((first, later)) = variables.split_first() else {
        return number_of_none(alloc);
    };
    if first.count == 0 {
        return Ok(no_numbers(alloc));
    }
    let rest = numbers_of(alloc, later, needs_later(needs_all, first))?;
    let width = size(later);
    let held = spread(alloc, first, width, &rest.all, &rest.held)?;
    let all = all_if(alloc, needs_all, first, width, &rest.all)?;
    Ok(Numbers { all, held })
}

// Whether all numbers of the variables after this one are needed.
#[inline]
fn needs_later(needs_all: bool, first: &Variable) -> bool
    ensures { result ≡ (needs_all || nat_lt first.now.own first.now.count) }
{
    needs_all || first.own < first.count
}

// No numbers. It takes no memory.
fn no_numbers(alloc: Global) -> Numbers
    ensures all { result.all.items ≡ [] }
    ensures held { result.held.items ≡ [] }
{
    Numbers {
        all: Vec::new(alloc),
        held: Vec::new(alloc),
    }
}

// The one number of no variables.
fn number_of_none(alloc: Global) -> Result<Numbers, AllocError>
    ensures all { IfOk result (λ n. n.all.items ≡ 0 ∷ []) }
    ensures held { IfOk result (λ n. n.held.items ≡ []) }
{
    let all = Vec::from_slice(alloc, &[0])?;
    Ok(Numbers {
        all,
        held: Vec::new(alloc),
    })
}

// The numbers with one more variable in front, if they are needed.
fn all_if(
    alloc: Global,
    needs_all: bool,
    variable: &Variable,
    width: u32,
    all: &[u32],
) -> Result<Vec<u32>, AllocError>
    requires size { IsBindingCount (variable.now.capacity * width) }
    requires all { AscendsWithin 0 width all.now }
    ensures rising { IfOk result (λ r. AscendsWithin 0 (variable.now.capacity * width) r.items) }
    ensures has { IfOk result (λ r. needs_all ≡ true → (p d : ℕ) → d < width → has r.items (p * width + d)
        ≡ (nat_lt p variable.now.count && has all.now d)) }
{
    if !needs_all {
        return Ok(Vec::new(alloc));
    }
    spread(alloc, variable, width, all, all)
}

// The numbers with one more variable in front: with those of `all` at the place of the object that was written,
// and those of `held` at each other place.
fn spread(
    alloc: Global,
    variable: &Variable,
    width: u32,
    all: &[u32],
    held: &[u32],
) -> Result<Vec<u32>, AllocError>
    requires size { IsBindingCount (variable.now.capacity * width) }
    requires all { AscendsWithin 0 width all.now }
    requires held { AscendsWithin 0 width held.now }
    ensures rising { IfOk result (λ r. AscendsWithin 0 (variable.now.capacity * width) r.items) }
    ensures has { IfOk result (λ r. (p d : ℕ) → d < width → has r.items (p * width + d)
        ≡ (nat_lt p variable.now.count && (if p == variable.now.own then has all.now d else has held.now d))) }
{
    // Else the places of all other objects would be visited for nothing.
    if held.is_empty() {
        return at_own_place(alloc, variable, width, all);
    }
    at_each_place(alloc, variable, width, all, held)
}

// The numbers with the object that was written in front.
fn at_own_place(
    alloc: Global,
    variable: &Variable,
    width: u32,
    all: &[u32],
) -> Result<Vec<u32>, AllocError>
    requires size { IsBindingCount (variable.now.capacity * width) }
    requires all { AscendsWithin 0 width all.now }
    ensures rising { IfOk result (λ r. AscendsWithin 0 (variable.now.capacity * width) r.items) }
    ensures has { IfOk result (λ r. (p d : ℕ) → d < width → has r.items (p * width + d)
        ≡ (nat_lt p variable.now.count && (if p == variable.now.own then has all.now d else false))) }
{
    let mut made = Vec::new(alloc);
    let variable = *variable;
    if variable.own >= variable.count {
        return Ok(made);
    }
    append(&mut made, variable.own * width, all)?;
    Ok(made)
}

// The numbers with each object in front.
fn at_each_place(
    alloc: Global,
    variable: &Variable,
    width: u32,
    all: &[u32],
    held: &[u32],
) -> Result<Vec<u32>, AllocError>
    requires size { IsBindingCount (variable.now.capacity * width) }
    requires all { AscendsWithin 0 width all.now }
    requires held { AscendsWithin 0 width held.now }
    ensures rising { IfOk result (λ r. AscendsWithin 0 (variable.now.capacity * width) r.items) }
    ensures has { IfOk result (λ r. (p d : ℕ) → d < width → has r.items (p * width + d)
        ≡ (nat_lt p variable.now.count && (if p == variable.now.own then has all.now d else has held.now d))) }
{
    let mut made = Vec::new(alloc);
    let variable = *variable;
    'places: for place in 0..variable.count {
        append(
            &mut made,
            place * width,
            rest_at(place == variable.own, all, held),
        )?;
    }
    Ok(made)
}

// The numbers of the later variables that go with a place.
#[inline]
fn rest_at<'a>(is_own: bool, all: &'a [u32], held: &'a [u32]) -> &'a [u32]
    ensures { result.now ≡ (if is_own then all.now else held.now) }
{
    if is_own { all } else { held }
}

// Appends the numbers, each with the base added.
fn append(made: &mut Vec<u32>, base: u32, numbers: &[u32]) -> Result<(), AllocError>
    requires { All (λ d. base + d < 2 ^ 32) numbers.now }
    ensures { OnOk result (made.new.items ≡ made.old.items ++ map (λ d. base + d) numbers.now) }
{
    'numbers: for number in numbers {
        made.push(base + *number)?;
    }
    Ok(())
}
