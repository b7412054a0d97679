//! A query by name as one by number.
ghost use Rattle.std.specs.Prelude.{◌≡◌, None, unwrap_or, IfOk, IfErr, IsOk};
ghost use Rattle.history.specs.World.{World};
ghost use Rattle.formula.specs.Resolved.{IsResolved};
ghost use Rattle.formula.specs.Tree.{resolved_view};
ghost use Rattle.ftl_parser.specs.Lawful.{IsLawful};
ghost use Rattle.ftl_parser.specs.Tree.{query_view};
ghost use Rattle.meaning.specs.Fits.{FitsItsClasses};
ghost use Rattle.ftl_typer.specs.Faults.{faults};
ghost use Rattle.ftl_typer.specs.First.{first_fault, found_after, nothing_found};
ghost use Rattle.ftl_typer.specs.Resolved.{resolved};
ghost use Rattle.ftl_typer.specs.declared.fault.TypeFault.TheVariants.{NoMemory};

use crate::TypeFault;
use crate::atoms::Place;
use crate::building::{build_classes, build_formula, build_variables};
use crate::formulas::note_formula;
use crate::found::Found;
use crate::heads::{note_parts, note_targets};
use crate::scope::Scope;
use formula::RQuery;
use ftl_parser::Query;
use object_store::Schema;
use polygon::Regions;
use std::alloc::{AllocError, Global};

/// The least place of each kind of fault in a query.
#[tactic(auto, using(crate::proofs::SizeLemmas::lawful_sizes, crate::proofs::SizeLemmas::few_names, crate::proofs::SizeLemmas::few_terms))]
fn found_in(query: &Query, schema: &Schema, regions: &Regions) -> Found
    requires { IsLawful (query_view query.now) }
    ensures { result ≡ found_after nothing_found (faults schema.now regions.now (query_view query.now)) }
{
    let targets = query.targets.items();
    let parts = query.from.items();
    let scope = Scope::new(schema, regions, parts);
    let mut found = Found::new();
    note_targets(&scope, targets, &mut found);
    note_parts(schema, parts, targets.len(), &mut found);
    let place = Place {
        names: targets.len() + 2 * parts.len(),
        terms: 0,
    };
    note_formula(&scope, &query.formula, place, &mut found);
    found
}

/// The query with numbers for its names.
#[tactic(auto, using(crate::proofs::SizeLemmas::lawful_sizes))]
fn build(
    alloc: Global,
    query: &Query,
    schema: &Schema,
    regions: &Regions,
) -> Result<RQuery, AllocError>
    requires { IsLawful (query_view query.now) }
    ensures { IfOk result (λ r. resolved_view r ≡ resolved schema.now regions.now (query_view query.now)) }
{
    let parts = query.from.items();
    let scope = Scope::new(schema, regions, parts);
    let targets = build_variables(alloc, &scope, query.targets.items())?;
    let classes = build_classes(alloc, schema, parts)?;
    let formula = build_formula(alloc, &scope, &query.formula)?;
    Ok(RQuery {
        targets,
        classes,
        formula,
    })
}

/// The query with numbers for its names: variables by their places in FROM, classes, attributes, regions, and
/// value variables by the depths of their assignments, each with its bound.
///
/// # Errors
///
/// The first fault of the query, by kind and then by place; `NoMemory` only where it has none.
pub fn resolve(
    alloc: Global,
    query: &Query,
    schema: &Schema,
    regions: &Regions,
) -> Result<RQuery, TypeFault>
    requires { IsLawful (query_view query.now) }
    ensures query { IfOk result (λ r. resolved_view r ≡ resolved schema.now regions.now (query_view query.now)) }
    ensures sound { IfOk result (λ r. IsResolved (resolved_view r)) }
    ensures fits { (w : World) → w.history.catalog.classes ≡ schema.now → w.regions ≡ regions.now
        → IfOk result (λ r. FitsItsClasses w (resolved_view r)) }
    ensures right { IsOk result → first_fault (faults schema.now regions.now (query_view query.now)) ≡ None }
    ensures cause { IfErr result (λ fault.
        fault ≡ unwrap_or (first_fault (faults schema.now regions.now (query_view query.now))) NoMemory) }
{
    if let Some(fault) = found_in(query, schema, regions).first() {
        return Err(fault);
    }
    let built = build(alloc, query, schema, regions)?;
    Ok(built)
}
