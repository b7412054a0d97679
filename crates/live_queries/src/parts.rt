//! Relations in which one variable is one object alone: together they have each binding that holds the object.
ghost use Rattle.std.specs.Prelude.{◌≡◌, ◌<◌, ◌+◌, ◌-◌, ◌∷◌, ◌++◌, ℕ, All, [], length, sum_by, IfOk, OnOk};
ghost use Rattle.std.specs.List.{flat_map};
ghost use Rattle.std.specs.List.Sorted.{IsStrictlyIncreasing};
ghost use Rattle.tick_set.specs.Ticks.{between};
ghost use Rattle.tick_set.specs.Windows.{IsQueryWindow};
ghost use Rattle.formula_shape.specs.Sizes.{FitInQuery};
ghost use Rattle.formula.specs.Resolved.{IsResolved};
ghost use Rattle.formula.specs.Tree.{resolved_view};
ghost use Rattle.meaning.specs.Fits.{FitsItsClasses};
ghost use Rattle.meaning.specs.Reads.{query_reads};
ghost use Rattle.object_store.specs.Contents.{catalog_of};
ghost use Rattle.relation.specs.Frames.{domain_size};
ghost use Rattle.atoms.specs.Asked.{told_world};
ghost use Rattle.answers.specs.Objects.{AreOfItsClasses, IsOfAcceptedWrites};
ghost use Rattle.live_queries.specs.Written.{ArePartsOf, domains_for, ids_for, single_for};
ghost use Rattle.steps.specs.Counting.{StepsAtMost};

use crate::objects::is_of_class;
use crate::written::{Judged, Written};
use answers::evaluate;
use formula::ClassNo;
use interval_set::IntervalSet;
use object_store::Store;
use relation::{Domains, Relation};
use std::alloc::{AllocError, Global};
use std::sync::ledger::Ledger;
use steps::Steps;

/// The objects that each variable ranges over, where one variable is one object alone.
#[derive(Drop)]
pub(crate) struct Single {
    pub(crate) variable: u8,
    pub(crate) domains: Domains,
}

/// The rows of a query over such objects.
#[derive(Drop)]
pub(crate) struct Part<'d> {
    pub(crate) variable: u8,
    pub(crate) rows: Relation<'d, IntervalSet>,
}

/// What each variable ranges over where one of the object's class is the object alone, for each such variable. It
/// fails only where memory is out.
pub(crate) fn singles(
    alloc: Global,
    classes: &[ClassNo],
    store: &Store,
    object: &Written,
) -> Result<Vec<Single>, AllocError>
    requires { FitInQuery classes.now }
    ensures { IfOk result (λ singles. singles.items
        ≡ flat_map (single_for (catalog_of store.now) classes.now object.now.class object.now.id) (between 0 (length classes.now))) }
{
    let mut singles = Vec::new(alloc);
    'variables: for variable in 0..classes.len() as u8 {
        add_single(alloc, classes, store, object, variable, &mut singles)?;
    }
    Ok(singles)
}

// Adds what each variable ranges over where this one is the object alone, if it is of the object's class.
fn add_single(
    alloc: Global,
    classes: &[ClassNo],
    store: &Store,
    object: &Written,
    variable: u8,
    singles: &mut Vec<Single>,
) -> Result<(), AllocError>
    requires { FitInQuery classes.now }
    ensures { OnOk result (singles.new.items ≡ singles.old.items ++ single_for (catalog_of store.now) classes.now object.now.class object.now.id variable) }
{
    if !is_of_class(classes, variable, object.class) {
        return Ok(());
    }
    let domains = domains_for(alloc, classes, store, object.id, variable)?;
    singles.push(Single { variable, domains })?;
    Ok(())
}

// What each variable ranges over where this one is the object alone.
fn domains_for(
    alloc: Global,
    classes: &[ClassNo],
    store: &Store,
    id: u32,
    variable: u8,
) -> Result<Domains, AllocError>
    requires { FitInQuery classes.now }
    ensures { IfOk result (λ d. d ≡ domains_for (catalog_of store.now) classes.now id variable) }
{
    let alone = [id];
    let mut domains = Domains::new(alloc);
    'variables: for other in 0..classes.len() as u8 {
        domains.push(alloc, ids_for(classes, store, &alone, variable, other))?;
    }
    Ok(domains)
}

// The objects of a variable, where another one or itself is one object alone.
fn ids_for<'a>(
    classes: &[ClassNo],
    store: &'a Store,
    alone: &'a [u32; 1],
    variable: u8,
    other: u8,
) -> &'a [u32]
    requires { other < length classes.now }
    ensures value { (id : ℕ) → alone.now ≡ id ∷ [] → result.now ≡ ids_for (catalog_of store.now) classes.now id variable other }
    ensures ascending { IsStrictlyIncreasing result.now }
{
    if variable == other {
        return alone;
    }
    store.class_names(classes[other as usize])
}

/// The relations over such objects, one for each variable that is the object. It fails only where memory is out.
pub(crate) fn parts_of<'d, L: Ledger, M: Ledger>(
    alloc: Global,
    judged: &Judged,
    singles: &'d [Single],
    reads: &mut Steps<L>,
    probes: &mut Steps<M>,
) -> Result<Vec<Part<'d>>, AllocError>
    requires accepted { IsOfAcceptedWrites judged.now.world.now.store.now }
    requires resolved { IsResolved (resolved_view judged.now.query.now) }
    requires fits { FitsItsClasses (told_world judged.now.world.now) (resolved_view judged.now.query.now) }
    requires domains { All (λ s. AreOfItsClasses (catalog_of judged.now.world.now.store.now) (resolved_view judged.now.query.now) s.domains) singles.now }
    requires length { IsQueryWindow judged.now.w }
    ensures parts { IfOk result (λ parts. ArePartsOf (told_world judged.now.world.now) (resolved_view judged.now.query.now) judged.now.w.lo judged.now.w.hi singles.now parts.items) }
    ensures reads { StepsAtMost reads.old reads.new
        (sum_by (λ s. query_reads (domain_size s.domains) (judged.now.w.hi + 1 - judged.now.w.lo) (resolved_view judged.now.query.now)) singles.now) }
{
    let world = judged.world;
    let mut parts = Vec::with_capacity(alloc, singles.len())?;
    let mut rest = singles;
    'singles: while let Some((single, later)) = rest.split_first() {
        let domains = &single.domains;
        let rows = evaluate(
            alloc,
            judged.query,
            domains,
            world.store,
            world.regions,
            judged.w,
            reads,
            probes,
        )?;
        parts.push(Part {
            variable: single.variable,
            rows,
        })?;
        rest = later;
    }
    Ok(parts)
}
