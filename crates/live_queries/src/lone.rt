//! Queries of one variable.
ghost use Rattle.std.specs.Prelude.{◌≡◌, ◌≤◌, true};
ghost use Rattle.std.specs.Option.{ForSome};
ghost use Rattle.live_queries.specs.Lone.{IsLone};

use crate::objects::Objects;
use crate::written::Written;
use formula::{ClassNo, RQuery};

/// The class of the only variable of a query, and how many objects the query has of it.
#[derive(Clone, Copy)]
pub(crate) struct Lone {
    pub(crate) class: ClassNo,
    pub(crate) count: u32,
}

/// That of a query with these columns. None where it has another number of variables.
pub(crate) fn lone_of(query: &RQuery, columns: &[Objects]) -> Option<Lone>
    ensures { ForSome result (IsLone query.now.classes columns.now) }
{
    let [class] = query.classes.items() else {
        return None;
    };
    let [column] = columns else {
        return None;
    };
    Some(Lone {
        class: *class,
        count: column.numbers().count,
    })
}

/// Whether its variable is of the class of an object, of which the query has all objects.
#[inline]
pub(crate) fn has_all(lone: &Lone, object: &Written) -> bool
    ensures class { result ≡ true → lone.now.class ≡ object.now.class }
    ensures count { result ≡ true → object.now.count ≤ lone.now.count }
{
    lone.class == object.class && object.count <= lone.count as usize
}
