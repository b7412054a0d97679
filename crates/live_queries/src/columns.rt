//! The columns of a query: its variables in the order of the numbers of its bindings, with their objects.
ghost use Rattle.std.specs.Prelude.{◌≡◌, ◌<◌, ◌≤◌, ◌==◌, ◌&&◌, true, nat_lt, not, length, IfOk};
ghost use Rattle.std.specs.List.{list_any, list_all};
ghost use Rattle.history.specs.Catalog.{capacity_of, ids_of};
ghost use Rattle.formula.specs.Resolved.{IsResolved};
ghost use Rattle.formula.specs.Tree.{resolved_view};
ghost use Rattle.object_store.specs.Contents.{IsClassNumber, catalog_of, ids_in};
ghost use Rattle.live_queries.specs.Columns.{AreColumnsOf, IsColumnOf, order_of};
ghost use Rattle.live_queries.specs.Prepared.{HaveRoomFor};
ghost use Rattle.live_queries.specs.Written.{AreVariablesWith, DoAscendWith, lacks_objects};

use crate::objects::{Objects, is_of_class};
use crate::written::Arrival;
use formula::{ClassNo, RQuery};
use kept_rows::Variable;
use object_store::Store;
use std::alloc::{AllocError, Global};

/// The columns of a query that is right by number, whose classes are there. It fails only where memory is out.
pub(crate) fn columns_of(
    alloc: Global,
    query: &RQuery,
    store: &Store,
) -> Result<Vec<Objects>, AllocError>
    requires resolved { IsResolved (resolved_view query.now) }
    requires classes { list_all (λ k. nat_lt k (length store.now.classes)) query.now.classes ≡ true }
    ensures { IfOk result (λ columns. AreColumnsOf (catalog_of store.now) query.now.classes (order_of (resolved_view query.now)) columns.items) }
{
    let order = order(alloc, query)?;
    let mut columns = Vec::with_capacity(alloc, order.len())?;
    let mut rest: &[u8] = &order;
    'variables: while let Some((variable, later)) = rest.split_first() {
        columns.push(column(alloc, query, store, *variable)?)?;
        rest = later;
    }
    Ok(columns)
}

// The targets, and then the other variables in their order.
fn order(alloc: Global, query: &RQuery) -> Result<Vec<u8>, AllocError>
    ensures { IfOk result (λ order. order.items ≡ order_of (resolved_view query.now)) }
{
    let targets = query.targets.items();
    let count = query.classes.items().len();
    let mut others = Vec::from_slice(alloc, &[0, 1, 2, 3])?;
    others.retain(|variable| is_other(targets, count, *variable));
    let mut order = Vec::from_slice(alloc, targets)?;
    order.extend_from_slice(&others)?;
    Ok(order)
}

// Whether a variable is one of so many and no target.
fn is_other(targets: &[u8], count: usize, variable: u8) -> bool
    ensures { result ≡ (nat_lt variable count && not (list_any (λ u. u == variable) targets.now)) }
{
    (variable as usize) < count && !targets.contains(&variable)
}

// The column of a variable.
fn column(alloc: Global, query: &RQuery, store: &Store, variable: u8) -> Result<Objects, AllocError>
    requires there { variable < length query.now.classes }
    requires classes { list_all (λ k. nat_lt k (length store.now.classes)) query.now.classes ≡ true }
    ensures { IfOk result (λ c. IsColumnOf (catalog_of store.now) query.now.classes variable c) }
{
    let class = query.classes.items()[variable as usize];
    let capacity = capacity(store, class);
    Objects::new(alloc, variable, capacity, store.class_names(class))
}

// How many objects a class may have, which are at least as many as it has.
fn capacity(store: &Store, class: ClassNo) -> u32
    requires { IsClassNumber store.now class }
    ensures value { result ≡ capacity_of (catalog_of store.now).classes class }
    ensures some { 1 ≤ result }
    ensures room { length (ids_in store.now.objects class) ≤ result }
{
    let _ = store.object_count();
    match store.schema().class(class) {
        Some(class) => class.capacity(),
        None => unreachable!(),
    }
}

/// How many objects a class has: no more than it may have.
pub(crate) fn class_count(store: &Store, class: ClassNo) -> usize
    ensures value { result ≡ length (ids_of (catalog_of store.now) class) }
    ensures room { 1 ≤ capacity_of (catalog_of store.now).classes class → result ≤ capacity_of (catalog_of store.now).classes class }
{
    let _ = store.object_count();
    store.class_names(class).len()
}

/// How many objects the variables of columns have and may have, with an object more for the variables of its class, if
/// there is one more, and with the place of this object for each, which is looked for at a likely one first. It fails only
/// where memory is out.
pub(crate) fn numbers_with(
    alloc: Global,
    columns: &[Objects],
    classes: &[ClassNo],
    arrival: &Arrival,
) -> Result<Vec<Variable>, AllocError>
    requires room { arrival.now.grows ≡ true → HaveRoomFor arrival.now.object.now.class classes.now columns.now }
    requires ascending { DoAscendWith arrival.now.grows arrival.now.object.now.class classes.now arrival.now.object.now.id columns.now }
    ensures { IfOk result (λ numbers. AreVariablesWith arrival.now.grows arrival.now.object.now.class classes.now arrival.now.object.now.id columns.now numbers.items) }
{
    let object = arrival.object;
    let mut numbers = Vec::with_capacity(alloc, columns.len())?;
    let mut rest = columns;
    'columns: while let Some((column, later)) = rest.split_first() {
        let takes = arrival.grows && is_of_class(classes, column.variable(), object.class);
        numbers.push(column.numbers_with(takes, object.id, object.place as usize))?;
        rest = later;
    }
    Ok(numbers)
}

/// Whether one of these classes is this one.
#[inline]
pub(crate) fn has_class(classes: &[ClassNo], class: ClassNo) -> bool
    ensures { result ≡ list_any (λ k. k == class) classes.now }
{
    classes.iter().any(|k| *k == class)
}

/// Whether a column of the class has fewer objects than there are.
pub(crate) fn lack(columns: &[Objects], classes: &[ClassNo], class: ClassNo, count: usize) -> bool
    ensures { result ≡ list_any (lacks_objects classes.now class count) columns.now }
{
    columns.iter().any(|column| is_of_class(classes, column.variable(), class)
        && column.ids().len() < count)
}
