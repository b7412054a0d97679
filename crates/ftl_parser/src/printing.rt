//! The canonical text of queries.

ghost use Rattle.std.specs.Prelude.{◌≡◌, ◌++◌, codes, decimal, IfOk, OnOk, OnErr};
ghost use Rattle.fixed_point.specs.Canonical.{fix_text};
ghost use Rattle.ftl_parser.specs.Tree.{view, query_view};
ghost use Rattle.ftl_parser.specs.Text.{assign_text, atom_text, bound_text, bound_word, factor_text, factors_text, first_sign, formula_text, from_part_text, from_parts_text, later_factors, later_names, later_parts, later_sign, name_pair_text, names_text, op_word, prefix_text, query_text, sub_word, term_text, times_text, truth_word, unit_text, until_text};

use crate::prefix::Prefix;
use crate::{Atom, Formula, FromPart, Query, Signed, Term, Unit};
use case_table::Op;
use fixed_point::{BoundForm, Fix, SubName, UntilForm, Word};
use itoa::Buffer;
use std::alloc::{AllocError, Global};

/// The canonical text of a query. An `Err` says that there is no memory for it.
pub fn print(alloc: Global, query: &Query) -> Result<Vec<u8>, AllocError>
    ensures { IfOk result (λ text. text.items ≡ query_text (query_view query.now)) }
{
    let mut text = Vec::new(alloc);
    print_onto(query, &mut text)?;
    Ok(text)
}

/// Writes the canonical text of a query at the end of `out`. An `Err` says that there is no memory for
/// it, and leaves open what `out` holds then.
pub fn print_onto(query: &Query, out: &mut Vec<u8>) -> Result<(), AllocError>
    ensures { OnOk result (out.new.items ≡ out.old.items ++ query_text (query_view query.now)) }
{
    out.extend_from_slice(b"RETRIEVE ")?;
    push_names(out, query.targets.items())?;
    out.extend_from_slice(b" FROM ")?;
    push_parts(out, query.from.items())?;
    out.extend_from_slice(b" WHERE ")?;
    push_formula(out, &query.formula)?;
    Ok(())
}

// Each of these writes one part at the end.

fn push_names(out: &mut Vec<u8>, names: &[Word]) -> Result<(), AllocError>
    ensures { OnOk result (out.new.items ≡ out.old.items ++ names_text names.now) }
{
    if let Some((name, later)) = names.split_first() {
        out.extend_from_slice(name.bytes())?;
        push_later_names(out, later)?;
    }
    Ok(())
}

fn push_later_names(out: &mut Vec<u8>, names: &[Word]) -> Result<(), AllocError>
    ensures { OnOk result (out.new.items ≡ out.old.items ++ later_names names.now) }
{
    let mut rest = names;
    while let Some((name, later)) = rest.split_first() {
        out.extend_from_slice(b",")?;
        out.extend_from_slice(name.bytes())?;
        rest = later;
    }
    Ok(())
}

fn push_parts(out: &mut Vec<u8>, parts: &[FromPart]) -> Result<(), AllocError>
    ensures { OnOk result (out.new.items ≡ out.old.items ++ from_parts_text parts.now) }
{
    if let Some((part, later)) = parts.split_first() {
        push_part(out, part)?;
        push_later_parts(out, later)?;
    }
    Ok(())
}

fn push_later_parts(out: &mut Vec<u8>, parts: &[FromPart]) -> Result<(), AllocError>
    ensures { OnOk result (out.new.items ≡ out.old.items ++ later_parts parts.now) }
{
    let mut rest = parts;
    while let Some((part, later)) = rest.split_first() {
        out.extend_from_slice(b",")?;
        push_part(out, part)?;
        rest = later;
    }
    Ok(())
}

fn push_part(out: &mut Vec<u8>, part: &FromPart) -> Result<(), AllocError>
    ensures { OnOk result (out.new.items ≡ out.old.items ++ from_part_text part.now) }
{
    out.extend_from_slice(part.class.bytes())?;
    out.extend_from_slice(b" ")?;
    out.extend_from_slice(part.var.bytes())?;
    Ok(())
}

fn push_term(out: &mut Vec<u8>, term: &Term) -> Result<(), AllocError>
    ensures { OnOk result (out.new.items ≡ out.old.items ++ term_text term.now) }
{
    push_factors(out, term.factors.items())
}

fn push_factors(out: &mut Vec<u8>, factors: &[Signed]) -> Result<(), AllocError>
    ensures { OnOk result (out.new.items ≡ out.old.items ++ factors_text factors.now) }
{
    if let Some((factor, later)) = factors.split_first() {
        out.extend_from_slice(first_sign(factor.minus))?;
        push_factor(out, factor)?;
        push_later_factors(out, later)?;
    }
    Ok(())
}

fn push_later_factors(out: &mut Vec<u8>, factors: &[Signed]) -> Result<(), AllocError>
    ensures { OnOk result (out.new.items ≡ out.old.items ++ later_factors factors.now) }
{
    let mut rest = factors;
    while let Some((factor, later)) = rest.split_first() {
        out.extend_from_slice(later_sign(factor.minus))?;
        push_factor(out, factor)?;
        rest = later;
    }
    Ok(())
}

fn first_sign(minus: bool) -> &'static [u8]
    ensures { result.now ≡ first_sign minus }
{
    if minus { b"-" } else { b"" }
}

fn later_sign(minus: bool) -> &'static [u8]
    ensures { result.now ≡ later_sign minus }
{
    if minus { b" - " } else { b" + " }
}

fn push_factor(out: &mut Vec<u8>, factor: &Signed) -> Result<(), AllocError>
    ensures { OnOk result (out.new.items ≡ out.old.items ++ factor_text factor.now) }
{
    push_times(out, factor.times)?;
    push_unit(out, &factor.unit)?;
    Ok(())
}

fn push_times(out: &mut Vec<u8>, times: Option<u32>) -> Result<(), AllocError>
    ensures { OnOk result (out.new.items ≡ out.old.items ++ times_text times) }
{
    if let Some(times) = times {
        push_number(out, times)?;
        out.extend_from_slice(b" * ")?;
    }
    Ok(())
}

fn push_unit(out: &mut Vec<u8>, unit: &Unit) -> Result<(), AllocError>
    ensures { OnOk result (out.new.items ≡ out.old.items ++ unit_text unit.now) }
{
    match unit {
        Unit::Literal(number) => out.extend_from_slice(number.print().bytes()),
        Unit::Text(text) => push_text(out, text),
        Unit::Alone(name) => out.extend_from_slice(name.bytes()),
        Unit::Attr(name, attribute) => push_attribute(out, name, attribute),
        Unit::Sub(name, attribute, part) => {
            push_attribute(out, name, attribute)?;
            out.extend_from_slice(b".")?;
            out.extend_from_slice(sub_word(*part))?;
            Ok(())
        }
        Unit::Time => out.extend_from_slice(b"TIME"),
    }
}

fn push_text(out: &mut Vec<u8>, text: &Word) -> Result<(), AllocError>
    ensures { OnOk result (out.new.items ≡ out.old.items ++ unit_text (Unit.Text text.now)) }
{
    out.extend_from_slice(b"\"")?;
    out.extend_from_slice(text.bytes())?;
    out.extend_from_slice(b"\"")?;
    Ok(())
}

fn push_attribute(out: &mut Vec<u8>, name: &Word, attribute: &Word) -> Result<(), AllocError>
    ensures { OnOk result (out.new.items ≡ out.old.items ++ unit_text (Unit.Attr name.now attribute.now)) }
{
    out.extend_from_slice(name.bytes())?;
    out.extend_from_slice(b".")?;
    out.extend_from_slice(attribute.bytes())?;
    Ok(())
}

fn sub_word(part: SubName) -> &'static [u8]
    ensures { result.now ≡ sub_word part }
{
    match part {
        SubName::Value => b"value",
        SubName::UpdateTime => b"updatetime",
        SubName::Function => b"function",
    }
}

/// Writes a number at the end. An `Err` changes nothing.
pub fn push_number(out: &mut Vec<u8>, number: u32) -> Result<(), AllocError>
    ensures ok { OnOk result (out.new.items ≡ out.old.items ++ decimal number) }
    ensures err { OnErr result (out.new.items ≡ out.old.items) }
{
    out.extend_from_slice(Buffer::new().format(number).as_bytes())
}

fn push_atom(out: &mut Vec<u8>, atom: &Atom) -> Result<(), AllocError>
    ensures { OnOk result (out.new.items ≡ out.old.items ++ atom_text atom.now) }
{
    match atom {
        Atom::Compare(left, op, right) => {
            push_term(out, left)?;
            push_op(out, *op)?;
            push_term(out, right)
        }
        Atom::Inside(variable, region) => push_pair(out, b"INSIDE", variable, region),
        Atom::Outside(variable, region) => push_pair(out, b"OUTSIDE", variable, region),
        Atom::Dist(first, second, op, number) => {
            push_pair(out, b"DIST", first, second)?;
            push_op(out, *op)?;
            out.extend_from_slice(number.print().bytes())
        }
        Atom::Sphere(radius, names) => push_circle(out, b"WITHIN_SPHERE(", *radius, names.items()),
    }
}

// A word with its bracket, a number and names.
fn push_circle(
    out: &mut Vec<u8>,
    word: &[u8],
    radius: Fix,
    names: &[Word],
) -> Result<(), AllocError>
    ensures { OnOk result (out.new.items ≡ out.old.items
        ++ (word.now ++ fix_text radius ++ later_names names.now ++ codes ")")) }
{
    out.extend_from_slice(word)?;
    out.extend_from_slice(radius.print().bytes())?;
    push_later_names(out, names)?;
    out.extend_from_slice(b")")?;
    Ok(())
}

fn push_op(out: &mut Vec<u8>, op: Op) -> Result<(), AllocError>
    ensures { OnOk result (out.new.items ≡ out.old.items ++ codes " " ++ op_word op ++ codes " ") }
{
    out.extend_from_slice(b" ")?;
    out.extend_from_slice(op_word(op))?;
    out.extend_from_slice(b" ")?;
    Ok(())
}

fn op_word(op: Op) -> &'static [u8]
    ensures { result.now ≡ op_word op }
{
    match op {
        Op::Lt => b"<",
        Op::Le => b"<=",
        Op::Eq => b"=",
        Op::Ne => b"!=",
        Op::Ge => b">=",
        Op::Gt => b">",
    }
}

// A word, and two names in brackets.
fn push_pair(out: &mut Vec<u8>, word: &[u8], first: &Word, second: &Word) -> Result<(), AllocError>
    ensures { OnOk result (out.new.items ≡ out.old.items ++ (word.now ++ name_pair_text first.now second.now)) }
{
    out.extend_from_slice(word)?;
    out.extend_from_slice(b"(")?;
    out.extend_from_slice(first.bytes())?;
    out.extend_from_slice(b",")?;
    out.extend_from_slice(second.bytes())?;
    out.extend_from_slice(b")")?;
    Ok(())
}

// It calls itself at most as deep as the formula is.
fn push_formula(out: &mut Vec<u8>, formula: &Formula) -> Result<(), AllocError>
    ensures { OnOk result (out.new.items ≡ out.old.items ++ formula_text (view formula.now)) }
{
    match formula {
        Formula::Truth(holds) => out.extend_from_slice(truth_word(*holds)),
        Formula::Atom(atom) => push_atom(out, atom),
        Formula::Not(part) => {
            out.extend_from_slice(prefix_text(Prefix::Not))?;
            push_formula(out, part)
        }
        Formula::And(left, right) => {
            out.extend_from_slice(b"(")?;
            push_formula(out, left)?;
            out.extend_from_slice(b" AND ")?;
            push_formula(out, right)?;
            out.extend_from_slice(b")")
        }
        Formula::Or(left, right) => {
            out.extend_from_slice(b"(")?;
            push_formula(out, left)?;
            out.extend_from_slice(b" OR ")?;
            push_formula(out, right)?;
            out.extend_from_slice(b")")
        }
        Formula::Next(part) => {
            out.extend_from_slice(prefix_text(Prefix::Next))?;
            push_formula(out, part)
        }
        Formula::Eventually(part) => {
            out.extend_from_slice(prefix_text(Prefix::Eventually))?;
            push_formula(out, part)
        }
        Formula::Always(part) => {
            out.extend_from_slice(prefix_text(Prefix::Always))?;
            push_formula(out, part)
        }
        Formula::Bounded(form, ticks, part) => {
            push_bound(out, *form, *ticks)?;
            push_formula(out, part)
        }
        Formula::Until(form, ticks, left, right) => {
            out.extend_from_slice(b"(")?;
            push_formula(out, left)?;
            push_until(out, *form, *ticks)?;
            push_formula(out, right)?;
            out.extend_from_slice(b")")
        }
        Formula::Assign(name, term, part) => {
            push_assignment(out, name, term)?;
            push_formula(out, part)
        }
    }
}

#[tactic(auto, unfolding(crate::specs::Text::prefix_text))]
fn prefix_text(word: Prefix) -> &'static [u8]
    ensures { result.now ≡ prefix_text word }
{
    match word {
        Prefix::Not => b"NOT ",
        Prefix::Next => b"NEXTTIME ",
        Prefix::Eventually => b"EVENTUALLY ",
        Prefix::Always => b"ALWAYS ",
    }
}

fn truth_word(holds: bool) -> &'static [u8]
    ensures { result.now ≡ truth_word holds }
{
    if holds { b"TRUE" } else { b"FALSE" }
}

fn push_bound(out: &mut Vec<u8>, form: BoundForm, ticks: u32) -> Result<(), AllocError>
    ensures { OnOk result (out.new.items ≡ out.old.items ++ bound_text form ticks) }
{
    out.extend_from_slice(bound_word(form))?;
    out.extend_from_slice(b" ")?;
    push_number(out, ticks)?;
    out.extend_from_slice(b" ")?;
    Ok(())
}

fn bound_word(form: BoundForm) -> &'static [u8]
    ensures { result.now ≡ bound_word form }
{
    match form {
        BoundForm::Within => b"EVENTUALLY_WITHIN",
        BoundForm::After => b"EVENTUALLY_AFTER",
        BoundForm::Always => b"ALWAYS_FOR",
    }
}

fn push_until(out: &mut Vec<u8>, form: UntilForm, ticks: u32) -> Result<(), AllocError>
    ensures { OnOk result (out.new.items ≡ out.old.items ++ until_text form ticks) }
{
    match form {
        UntilForm::Plain => out.extend_from_slice(b" UNTIL "),
        UntilForm::Within => push_until_bound(out, b" UNTIL_WITHIN ", ticks),
        UntilForm::After => push_until_bound(out, b" UNTIL_AFTER ", ticks),
    }
}

fn push_until_bound(out: &mut Vec<u8>, word: &[u8], ticks: u32) -> Result<(), AllocError>
    ensures { OnOk result (out.new.items ≡ out.old.items ++ (word.now ++ decimal ticks ++ codes " ")) }
{
    out.extend_from_slice(word)?;
    push_number(out, ticks)?;
    out.extend_from_slice(b" ")?;
    Ok(())
}

fn push_assignment(out: &mut Vec<u8>, name: &Word, term: &Term) -> Result<(), AllocError>
    ensures { OnOk result (out.new.items ≡ out.old.items ++ assign_text name.now term.now) }
{
    out.extend_from_slice(b"[")?;
    out.extend_from_slice(name.bytes())?;
    out.extend_from_slice(b" <- ")?;
    push_term(out, term)?;
    out.extend_from_slice(b"] ")?;
    Ok(())
}
