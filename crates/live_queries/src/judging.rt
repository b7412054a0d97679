//! Bindings judged by what an evaluation told.
ghost use Rattle.std.specs.Prelude.{◌≡◌, ◌≤◌, ℕ, false};
ghost use Rattle.tick_set.specs.Runs.{spans_have};
ghost use Rattle.kept_rows.specs.declared.binding.TheConstants.{BINDING_LIMIT};
ghost use Rattle.kept_rows.specs.Numbers.{IsBindingCount, size_of};
ghost use Rattle.relation.specs.Rows.{table_has};
ghost use Rattle.live_queries.specs.Columns.{column_variables, object_or};
ghost use Rattle.live_queries.specs.Written.{parts_have};

use crate::objects::{Objects, object_in, objects_of};
use crate::parts::Part;
use interval_set::IntervalSet;
use kept_rows::Judge;
use relation::Relation;

/// Judges each binding that holds an object by the relation in which its first variable that is the object is
/// nothing else.
#[derive(Drop)]
pub(crate) struct Parts<'a, 'd> {
    pub(crate) columns: &'a [Objects],
    pub(crate) object: u32,
    pub(crate) parts: &'a [Part<'d>],
    pub(crate) nothing: IntervalSet,
    pub(crate) ghost size: { size_of (column_variables columns.now) ≤ BINDING_LIMIT },
    pub(crate) ghost none: { (t : ℕ) → spans_have nothing t ≡ false },
}

impl Judge<IntervalSet> for Parts<'_, '_> {
    ghost use Rattle.live_queries.specs.Columns.{object_or};
    ghost use Rattle.live_queries.specs.Written.{parts_have};

    ghost full = { λ j number t. parts_have j.parts.now j.object (object_or j.object j.columns.now number) t };

    fn judge(&self, number: u32) -> &IntervalSet {
        row_in_parts(self.parts, self.columns, number, self.object, &self.nothing)
    }
}

/// Judges the one binding that holds an object, of a query of one variable, by the ticks of this object.
#[derive(Drop)]
pub(crate) struct Alone {
    pub(crate) ticks: IntervalSet,
}

impl Judge<IntervalSet> for Alone {
    ghost use Rattle.tick_set.specs.Runs.{spans_have};

    ghost full = { λ j number t. spans_have j.ticks t };

    fn judge(&self, _number: u32) -> &IntervalSet {
        &self.ticks
    }
}

// The row of a binding by its number, or the set without ticks. A place past the last is that of an object that is
// added.
fn row_of<'a>(
    rows: &'a Relation<'_, IntervalSet>,
    columns: &[Objects],
    number: u32,
    added: u32,
    nothing: &'a IntervalSet,
) -> &'a IntervalSet
    requires size { IsBindingCount (size_of (column_variables columns.now)) }
    requires none { (t : ℕ) → spans_have nothing.now t ≡ false }
    ensures { (t : ℕ) → spans_have result.now t ≡ table_has spans_have rows.now (object_or added columns.now number) t }
{
    let key = objects_of(columns, number, rows.vars(), added);
    match rows.row(&key) {
        Some(ticks) => ticks,
        None => nothing,
    }
}

// The row of a binding by its number in the first relation whose variable is the object.
fn row_in_parts<'a>(
    parts: &'a [Part<'_>],
    columns: &[Objects],
    number: u32,
    object: u32,
    nothing: &'a IntervalSet,
) -> &'a IntervalSet
    requires size { IsBindingCount (size_of (column_variables columns.now)) }
    requires none { (t : ℕ) → spans_have nothing.now t ≡ false }
    ensures { (t : ℕ) → spans_have result.now t ≡ parts_have parts.now object (object_or object columns.now number) t }
{
    let Some((part, later)) = parts.split_first() else {
        return nothing;
    };
    if object_in(columns, number, part.variable, object) == object {
        return row_of(&part.rows, columns, number, object, nothing);
    }
    row_in_parts(later, columns, number, object, nothing)
}
