//! Faults of targets and of FROM.
ghost use Rattle.std.specs.Prelude.{◌≡◌, ◌+◌, ◌*◌, ◌<◌, ◌≤◌, [], is_none, length};
ghost use Rattle.std.specs.List.{list_any};
ghost use Rattle.std.specs.Str.{bytes_eq};
ghost use Rattle.ftl_typer.specs.Faults.{parts_faults, targets_faults};
ghost use Rattle.ftl_typer.specs.Context.{scope_in};
ghost use Rattle.ftl_typer.specs.First.{found_after};
ghost use Rattle.history.specs.Catalog.{class_number};

use crate::found::{FaultKind, Found};
use crate::scope::Scope;
use fixed_point::Word;
use ftl_parser::FromPart;
use object_store::Schema;

fn has_name(names: &[Word], name: &Word) -> bool
    ensures { result ≡ list_any (bytes_eq name.now) names.now }
{
    names.iter().any(|other| *name == *other)
}

/// Notes the faults of the targets, with which a query begins.
#[tactic(auto, using(crate::proofs::StepLemmas::target_step, crate::proofs::StepLemmas::targets_end))]
pub fn note_targets(scope: &Scope, targets: &[Word], found: &mut Found)
    ensures { found.new ≡ found_after found.old (targets_faults (scope_in scope.now) 0 [] targets.now) }
{
    for at in 0..targets.len() {
        let name = &targets[at];
        let known = scope.is_variable(name);
        found.note_if(!known, FaultKind::UnknownName, at);
        let twice = has_name(&targets[..at], name);
        found.note_if(twice, FaultKind::NameTaken, at);
    }
}

fn has_variable(parts: &[FromPart], name: &Word) -> bool
    ensures { result ≡ list_any (λ e. bytes_eq name.now e.var) parts.now }
{
    parts.iter().any(|part| *name == part.var)
}

fn is_missing(schema: &Schema, class: &Word) -> bool
    ensures { result ≡ is_none (class_number schema.now class.now) }
{
    schema.class_of(class).is_none()
}

/// Notes the faults of the parts of FROM, before which `at` names are written.
#[tactic(auto, using(crate::proofs::StepLemmas::part_step, crate::proofs::StepLemmas::parts_end))]
pub fn note_parts(schema: &Schema, parts: &[FromPart], at: usize, found: &mut Found)
    requires { at + 2 * length parts.now ≤ usize.MAX }
    ensures { found.new ≡ found_after found.old (parts_faults schema.now at [] parts.now) }
{
    let mut place = at;
    for nth in 0..parts.len() {
        let part = &parts[nth];
        let missing = is_missing(schema, &part.class);
        found.note_if(missing, FaultKind::UnknownName, place);
        let twice = has_variable(&parts[..nth], &part.var);
        found.note_if(twice, FaultKind::NameTaken, place + 1);
        place += 2;
    }
}
