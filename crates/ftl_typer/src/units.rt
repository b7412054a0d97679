//! Faults of names and of what factors are made of.
#![tactic(auto, using(crate::proofs::FoundLemmas::found_none, crate::proofs::FoundLemmas::found_on))]

ghost use Rattle.std.specs.Prelude.{◌≡◌, ◌+◌, ◌<◌, ◌≤◌, length};
ghost use Rattle.ftl_parser.specs.Order.{unit_names};
ghost use Rattle.ftl_typer.specs.Faults.{attribute_faults, object_faults, part_faults, point_faults, region_faults, unit_faults, value_faults};
ghost use Rattle.ftl_typer.specs.Context.{scope_in};
ghost use Rattle.ftl_typer.specs.First.{found_after};

use crate::found::{FaultKind, Found};
use crate::scope::Scope;
use fixed_point::Word;
use ftl_parser::Unit;

/// Notes the faults of a name where an object must stand.
fn note_object(scope: &Scope, name: &Word, at: usize, found: &mut Found)
    ensures { found.new ≡ found_after found.old (object_faults (scope_in scope.now) at name.now) }
{
    found.note_if(scope.is_unknown(name), FaultKind::UnknownName, at);
    found.note_if(scope.is_no_object(name), FaultKind::WrongKind, at);
}

/// Notes the faults of a name where a number or a text must stand.
fn note_value(scope: &Scope, name: &Word, at: usize, found: &mut Found)
    ensures { found.new ≡ found_after found.old (value_faults (scope_in scope.now) at name.now) }
{
    found.note_if(scope.is_unknown(name), FaultKind::UnknownName, at);
    found.note_if(scope.is_variable(name), FaultKind::WrongKind, at);
}

/// Notes the faults of an attribute of a variable.
fn note_attribute(scope: &Scope, variable: &Word, name: &Word, at: usize, found: &mut Found)
    requires { at < usize.MAX }
    ensures { found.new ≡ found_after found.old (attribute_faults (scope_in scope.now) at variable.now name.now) }
{
    note_object(scope, variable, at, found);
    let lacks = scope.lacks_attribute(variable, name);
    found.note_if(lacks, FaultKind::UnknownName, at + 1);
}

/// Notes the faults of a sub-attribute of a variable.
fn note_part(scope: &Scope, variable: &Word, name: &Word, at: usize, found: &mut Found)
    requires { at < usize.MAX }
    ensures { found.new ≡ found_after found.old (part_faults (scope_in scope.now) at variable.now name.now) }
{
    note_attribute(scope, variable, name, at, found);
    let whole = scope.has_no_parts(variable, name);
    found.note_if(whole, FaultKind::WrongKind, at + 1);
}

/// Notes the faults of a name where a point must stand.
pub fn note_point(scope: &Scope, name: &Word, at: usize, found: &mut Found)
    ensures { found.new ≡ found_after found.old (point_faults (scope_in scope.now) at name.now) }
{
    note_object(scope, name, at, found);
    found.note_if(scope.is_no_point(name), FaultKind::WrongKind, at);
}

/// Notes a region that isn't there.
pub fn note_region(scope: &Scope, name: &Word, at: usize, found: &mut Found)
    ensures { found.new ≡ found_after found.old (region_faults (scope_in scope.now) at name.now) }
{
    let region = scope.region(name);
    found.note_if(region.is_none(), FaultKind::UnknownName, at);
}

/// Notes the faults of what a factor is made of, and answers how many names stand before what comes behind it.
pub fn note_unit(scope: &Scope, unit: &Unit, at: usize, found: &mut Found) -> usize
    requires { at + length (unit_names unit.now) ≤ usize.MAX }
    ensures found { found.new ≡ found_after found.old (unit_faults (scope_in scope.now) at unit.now) }
    ensures behind { result ≡ at + length (unit_names unit.now) }
{
    match unit {
        Unit::Literal(_) | Unit::Text(_) | Unit::Time => at,
        Unit::Alone(name) => {
            note_value(scope, name, at, found);
            at + 1
        }
        Unit::Attr(variable, name) => {
            note_attribute(scope, variable, name, at, found);
            at + 2
        }
        Unit::Sub(variable, name, _) => {
            note_part(scope, variable, name, at, found);
            at + 2
        }
    }
}
