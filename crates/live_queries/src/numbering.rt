//! The rows of a relation over all variables of a query, by the numbers of their bindings.
ghost use Rattle.std.specs.Prelude.{◌≡◌, ℕ, slice_index, IfOk};
ghost use Rattle.tick_set.specs.Runs.{spans_have};
ghost use Rattle.kept_rows.specs.Exact.{AreFullRows};
ghost use Rattle.kept_rows.specs.Numbers.{IsBindingCount, counts, size_of};
ghost use Rattle.kept_rows.specs.Rows.{HasRoom, row_has};
ghost use Rattle.relation.specs.Rows.{table_has};
ghost use Rattle.live_queries.specs.Columns.{column_variables, object_at_number};
ghost use Rattle.live_queries.specs.Numbered.{AreAmong, DoAscend, IsNumberOf, IsOverColumns};

use crate::objects::{Objects, place_in, width};
use formula::Binding;
use interval_set::IntervalSet;
use kept_rows::KeptRows;
use relation::Relation;
use std::alloc::{AllocError, Global};

/// The rows of a relation over all variables, each moved to the number of its binding. It fails only where memory is out.
pub(crate) fn table_of(
    alloc: Global,
    columns: &[Objects],
    full: Relation<'_, IntervalSet>,
) -> Result<KeptRows<IntervalSet>, AllocError>
    requires size { IsBindingCount (size_of (column_variables columns.now)) }
    requires over { IsOverColumns columns.now full }
    ensures room { IfOk result (λ rows. HasRoom rows (size_of (column_variables columns.now))) }
    ensures rows { IfOk result (λ rows. AreFullRows (row_has spans_have rows) (counts (column_variables columns.now))
        (λ n t. table_has spans_have full.entry (object_at_number columns.now n) t)) }
{
    let mut rows = filled(alloc, columns, full)?;
    // Where there are several variables a target may have more than one row, so that what it shares with others is to be
    // found.
    if columns.len() > 1 {
        rows.mark(alloc)?;
    }
    Ok(rows)
}

// The same without marks.
fn filled(
    alloc: Global,
    columns: &[Objects],
    full: Relation<'_, IntervalSet>,
) -> Result<KeptRows<IntervalSet>, AllocError>
    requires size { IsBindingCount (size_of (column_variables columns.now)) }
    requires over { IsOverColumns columns.now full }
    ensures room { IfOk result (λ rows. HasRoom rows (size_of (column_variables columns.now))) }
    ensures rows { IfOk result (λ rows. AreFullRows (row_has spans_have rows) (counts (column_variables columns.now))
        (λ n t. table_has spans_have full.entry (object_at_number columns.now n) t)) }
{
    full.rows_stand_in_order();
    let mut rows = KeptRows::new(alloc, width(columns))?;
    'moved: for row in full.into_rows() {
        let number = number_of(columns, &row.key);
        rows.set_row(alloc, number, row.set)?;
    }
    Ok(rows)
}

// The number of the binding of these objects, by the places of their variables. Each is one of its variable's.
fn number_of(columns: &[Objects], objects: &Binding) -> u32
    requires size { IsBindingCount (size_of (column_variables columns.now)) }
    requires ascend { DoAscend columns.now }
    requires among { AreAmong columns.now (slice_index objects.now) }
    ensures { IsNumberOf columns.now (slice_index objects.now) result }
{
    let Some((first, later)) = columns.split_first() else {
        return 0;
    };
    let object = object_at(objects, first.variable());
    place_in(first.ids(), first.numbers().count, object) * width(later) + number_of(later, objects)
}

// The object of a variable.
#[inline]
fn object_at(objects: &Binding, variable: u8) -> u32
    ensures { result ≡ slice_index objects.now variable }
{
    objects.get(variable as usize).unwrap_or(0)
}
