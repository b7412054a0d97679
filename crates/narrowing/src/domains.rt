//! The objects that suffice for a query.
ghost use Rattle.std.specs.Prelude.{◌≡◌, ◌<◌, ◌+◌, length, IfOk, IfSome, OnOk};
ghost use Rattle.formula_shape.specs.Sizes.{FitInQuery};
ghost use Rattle.formula.specs.Tree.{resolved_view};
ghost use Rattle.narrowing.specs.Narrowed.{AreOfClasses, IsShare, Suffice, SufficeSoFar, SufficeWithin};

use crate::holding::{FEW, those_to_hold};
use crate::lists::{common, if_at_most};
use crate::needed::needed;
use crate::scene::Scene;
use formula::RQuery;
use object_store::Store;
use polygon::Regions;
use relation::Domains;
use std::alloc::{AllocError, Global};
use tick_set::Window;
use worlds::worlds_lie_between;

/// Some of the objects of domains: with another one of them for some variable the formula of the query holds at no
/// tick of the window, after whose last tick nothing counts. None where as little as all of them are known. No timeline
/// is looked at. It fails only where memory is out.
pub fn narrowed(
    alloc: Global,
    q: &RQuery,
    domains: &Domains,
    store: &Store,
    regions: &Regions,
    w: Window,
) -> Result<Option<Domains>, AllocError>
    requires { AreOfClasses store.now (resolved_view q.now) domains.now }
    ensures { IfOk result (λ found.
        IfSome found (λ some. Suffice store.now regions.now (resolved_view q.now) w.lo w.hi domains.now some)) }
{
    worlds_lie_between();
    narrowed_within(alloc, q, domains, store, regions, 0, w)
}

/// The same where each position may be off by the error along each axis, in thousandths: with another object the formula
/// holds at no tick of the window, whatever is told of atoms that is possible.
pub fn narrowed_within(
    alloc: Global,
    q: &RQuery,
    domains: &Domains,
    store: &Store,
    regions: &Regions,
    error: u32,
    w: Window,
) -> Result<Option<Domains>, AllocError>
    requires { AreOfClasses store.now (resolved_view q.now) domains.now }
    ensures { IfOk result (λ found.
        IfSome found (λ some. SufficeWithin error store.now regions.now (resolved_view q.now) w.lo w.hi domains.now some)) }
{
    let scene = Scene {
        domains,
        store,
        regions,
        error,
        w,
    };
    let mut some = Domains::new(alloc);
    let mut are_fewer = false;
    let count = domains.len() as u8;
    'vars: for _var in 0..count {
        let is_narrowed = push_share(alloc, &mut some, q, &scene)?;
        are_fewer = are_fewer || is_narrowed;
    }
    if are_fewer { Ok(Some(some)) } else { Ok(None) }
}

/// Adds what suffices of the objects of the next variable, and tells whether it isn't just all of them.
fn push_share(
    alloc: Global,
    some: &mut Domains,
    q: &RQuery,
    scene: &Scene,
) -> Result<bool, AllocError>
    requires classes { AreOfClasses scene.now.store.now (resolved_view q.now) scene.now.domains.now }
    requires within { length some.old < length scene.now.domains.now }
    requires few { FitInQuery scene.now.domains.now }
    requires so_far { SufficeSoFar scene.now (resolved_view q.now) some.old }
    ensures count { OnOk result (length some.new ≡ length some.old + 1) }
    ensures so_far { OnOk result (SufficeSoFar scene.now (resolved_view q.now) some.new) }
{
    let var = next_variable(some);
    let share = share_of(alloc, var, q, scene)?;
    match share {
        Some(ids) => {
            some.push(alloc, &ids)?;
            Ok(true)
        }
        None => {
            some.push(alloc, scene.domains.of(var))?;
            Ok(false)
        }
    }
}

/// The first variable without objects.
fn next_variable(some: &Domains) -> u8
    requires { FitInQuery some.now }
    ensures { result ≡ length some.now }
{
    some.len() as u8
}

/// What suffices of the objects of a variable. None where that isn't known or is most of them.
fn share_of(
    alloc: Global,
    var: u8,
    q: &RQuery,
    scene: &Scene,
) -> Result<Option<Vec<u32>>, AllocError>
    requires classes { AreOfClasses scene.now.store.now (resolved_view q.now) scene.now.domains.now }
    requires within { var < length scene.now.domains.now }
    ensures { IfOk result (λ found. IfSome found (λ ids. IsShare scene.now (resolved_view q.now) var ids.items)) }
{
    let own = scene.domains.of(var);
    if own.len() < FEW {
        return share_of_few(alloc, var, q, scene);
    }
    let class = q.classes.items()[var as usize];
    let found = needed(alloc, &q.formula, var, class, scene)?;
    // Rows over most objects cost less made at once over all of them.
    match if_at_most(found, own.len() / 2) {
        Some(ids) => {
            let share = common(alloc, &ids, own)?;
            Ok(Some(share))
        }
        None => Ok(None),
    }
}

/// What suffices of the objects of a variable, by a look at each. None where it is all of them.
fn share_of_few(
    alloc: Global,
    var: u8,
    q: &RQuery,
    scene: &Scene,
) -> Result<Option<Vec<u32>>, AllocError>
    requires within { var < length scene.now.domains.now }
    ensures { IfOk result (λ found. IfSome found (λ ids. IsShare scene.now (resolved_view q.now) var ids.items)) }
{
    let own = scene.domains.of(var);
    let ids = those_to_hold(alloc, &q.formula, var, own, scene)?;
    if ids.len() < own.len() {
        Ok(Some(ids))
    } else {
        Ok(None)
    }
}
