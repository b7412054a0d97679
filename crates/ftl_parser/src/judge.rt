//! The sizes of a query, in the order in which they are judged.

ghost use Rattle.std.specs.Prelude.{◌≡◌, ◌<◌, List, [], ◌∷◌, find, length, nat_lt, option_map};
ghost use Rattle.ftl_parser.specs.Sizes.{first_too_large};
ghost use Rattle.ftl_parser.specs.inner.Views.{spelled_view};

use crate::Size;
use crate::head::Spelled;
use formula_shape::{DEPTH_LIMIT, FACTOR_LIMIT, NESTING_LIMIT, NODE_LIMIT, OBJECT_LIMIT};

// The first size that passes its limit; `long` says whether a name or a text passes its own.
pub(crate) fn first_too_large(query: &Spelled, long: bool) -> Option<Size>
    ensures { result ≡ first_too_large long (spelled_view query.now) }
{
    let sizes = query.formula.sizes();
    if query.from.items().len() > OBJECT_LIMIT {
        Some(Size::Variables)
    } else if sizes.objects > OBJECT_LIMIT {
        Some(Size::Objects)
    } else if sizes.nesting > NESTING_LIMIT {
        Some(Size::Assignments)
    } else if sizes.nodes > NODE_LIMIT {
        Some(Size::Nodes)
    } else if sizes.depth > DEPTH_LIMIT {
        Some(Size::Depth)
    } else if long {
        Some(Size::Length)
    } else if sizes.factors > FACTOR_LIMIT {
        Some(Size::Factors)
    } else {
        None
    }
}
