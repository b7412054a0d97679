//! A walk over bindings in their order, with two parts of relations at hand.

ghost use Rattle.std.specs.Prelude.{◌≡◌, [], OnOk};
ghost use Rattle.relation.specs.Walk.{CanWalk, HasWalked, set_or};

use crate::next::next_visited;
use crate::operation::Operation;
use crate::part::Part;
use crate::{Relation, Row};
use formula::Binding;
use std::alloc::{AllocError, Global};
use until_merge::Temporal;

// A part of each of two relations.
#[derive(Drop)]
pub(crate) struct Parts<'a, S> {
    pub(crate) left: Part<'a, S>,
    pub(crate) right: Part<'a, S>,
}

// Adds the rows of the bindings that continue the key by objects for these variables. Each part has the rows that
// agree with the key.
pub(crate) fn walk<S: Temporal>(
    alloc: Global,
    made: &mut Relation<'_, S>,
    operation: Operation,
    key: Binding,
    vars: &[u8],
    parts: &Parts<'_, S>,
) -> Result<(), AllocError>
    requires { CanWalk S.member made.old key vars.now parts.now.left parts.now.right }
    ensures { OnOk result (HasWalked S.member operation key vars.now parts.now.left parts.now.right made.old made.new) }
{
    let Some((var, later)) = vars.split_first() else {
        return add(alloc, made, operation, key, parts);
    };
    let domains = made.domains();
    let mut from = 0;
    'objects: while let Some(id) = next_visited(
        operation,
        *var,
        domains.of(*var),
        &parts.left,
        &parts.right,
        from,
    ) {
        let mut longer = key;
        longer.push(id);
        let left = parts.left.fixed(*var, id);
        let right = parts.right.fixed(*var, id);
        let fixed = Parts { left, right };
        walk(alloc, made, operation, longer, later, &fixed)?;
        from = u64::from(id) + 1;
    }
    Ok(())
}

// Adds the row of the key, where each part has no variable left.
fn add<S: Temporal>(
    alloc: Global,
    made: &mut Relation<'_, S>,
    operation: Operation,
    key: Binding,
    parts: &Parts<'_, S>,
) -> Result<(), AllocError>
    requires { CanWalk S.member made.old key [] parts.now.left parts.now.right }
    ensures { OnOk result (HasWalked S.member operation key [] parts.now.left parts.now.right made.old made.new) }
{
    let nothing = S::empty(alloc);
    let left = set_or(parts.left.rows, &nothing);
    let right = set_or(parts.right.rows, &nothing);
    let set = operation.combine(alloc, left, right, made.window())?;
    made.put(key, set)?;
    Ok(())
}

// The set of the first row, or the other one where there is none.
fn set_or<'a, S>(rows: &'a [Row<S>], nothing: &'a S) -> &'a S
    ensures { result.now ≡ set_or nothing.now rows.now }
{
    match rows.first() {
        Some(row) => &row.set,
        None => nothing,
    }
}
