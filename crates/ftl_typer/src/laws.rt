//! Laws of the definitions, as calls without a body.
ghost use Rattle.std.specs.Prelude.{◌≡◌, ◌++◌, None, List};
ghost use Rattle.geometry.specs.Region.{Region};
ghost use Rattle.history.specs.Catalog.{ClassInfo};
ghost use Rattle.history.specs.World.{World};
ghost use Rattle.formula.specs.Resolved.{IsResolved};
ghost use Rattle.meaning.specs.Fits.{FitsItsClasses};
ghost use Rattle.ftl_parser.specs.Lawful.{IsLawful};
ghost use Rattle.ftl_parser.specs.Tree.{QueryTree};
ghost use Rattle.ftl_typer.specs.Faults.{faults};
ghost use Rattle.ftl_typer.specs.Fault.{Fault};
ghost use Rattle.ftl_typer.specs.First.{IsFirst, first_fault};
ghost use Rattle.ftl_typer.specs.Resolved.{resolved};

/// What is told of faults is the first of them, by kind and then by place.
pub fn the_first_fault_is_told()
    ensures { (list : List Fault) → IsFirst list (first_fault list) }
{}

/// A query that is resolved stays so, and stays the same by number, when classes and regions are added. What
/// objects there are doesn't matter.
pub fn resolved_queries_stay()
    ensures { (classes added : List ClassInfo) (regions more : List Region) (q : QueryTree)
        → first_fault (faults classes regions q) ≡ None
        → (first_fault (faults (classes ++ added) (regions ++ more) q) ≡ None)
        × (resolved (classes ++ added) (regions ++ more) q ≡ resolved classes regions q) }
{}

/// A query without a fault is right by number, and fits the classes and regions of the world that it asks of.
pub fn queries_without_fault_are_right()
    ensures { (w : World) (q : QueryTree) → IsLawful q
        → first_fault (faults w.history.catalog.classes w.regions q) ≡ None
        → IsResolved (resolved w.history.catalog.classes w.regions q)
        × FitsItsClasses w (resolved w.history.catalog.classes w.regions q) }
{}
