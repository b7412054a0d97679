//! A relation and its rows.

ghost use Rattle.std.specs.Prelude.{◌≡◌, ◌||◌, ◌&&◌, ℕ, Bool, true, false, List, [], slice_get, option_map, OnOk, OnErr, MatchOption};
ghost use Rattle.std.specs.List.{list_all};
ghost use Rattle.std.specs.Str.{bytes_eq};
ghost use Rattle.tick_set.specs.Ticks.{LiesIn};
ghost use Rattle.formula_shape.specs.Sizes.{FitInQuery};

use crate::{Domains, Row, Variables};
use formula::Binding;
use std::alloc::{AllocError, Global};
use std::marker::Model;
use tick_set::Window;
use until_merge::Temporal;

/// For each binding of objects to the relation's variables, its ticks. The variables are distinct. There is a row
/// for each binding with a tick, in ascending order of the bindings, and all ticks lie in the window.
#[derive(Drop)]
pub struct Relation<'d, S: Temporal> {
    vars: Variables,
    domains: &'d Domains,
    window: Window,
    rows: Vec<Row<S>>,
}

impl<'d, S: Temporal> Model for Relation<'d, S> {
    ghost use Rattle.relation.specs.Rows.{IsTable, Table, table};

    ghost Value = { Table S };

    ghost view = { λ a. table a.vars a.domains.now a.window.lo a.window.hi a.rows.items };

    ghost invariant = { λ a. IsTable S.member (table a.vars a.domains.now a.window.lo a.window.hi a.rows.items) };
}

impl<'d, S: Temporal> Relation<'d, S> {
    ghost use Rattle.formula.specs.Resolved.{are_distinct};
    ghost use Rattle.relation.specs.Key.{are_known, key_below, key_in};
    ghost use Rattle.relation.specs.Rows.{IsSameHead, IsTable, has_at, table};

    /// No row, over these variables. Takes no memory; `alloc` serves what is put into it.
    pub fn empty(alloc: Global, vars: &[u8], domains: &'d Domains, window: Window) -> Self
        requires few { FitInQuery vars.now }
        requires known { are_known domains.now vars.now ≡ true }
        requires distinct { are_distinct vars.now ≡ true }
        ensures { result ≡ table vars.now domains.now window.lo window.hi [] }
    {
        Relation {
            vars: Variables::of(vars),
            domains,
            window,
            rows: Vec::new(alloc),
        }
    }

    /// Adds the row of a binding that is above all others; an empty set adds nothing. An `Err` changes nothing.
    pub fn put(&mut self, key: Binding, set: S) -> Result<(), AllocError>
        requires above { list_all (λ r. key_below r.key key) self.old.rows ≡ true }
        requires inside { key_in self.old.domains self.old.vars key ≡ true }
        requires lies { LiesIn self.old.lo self.old.hi (S.member set) }
        ensures ticks { OnOk result ((k : List ℕ) (t : ℕ) → has_at S.member self.new.rows k t
            ≡ (has_at S.member self.old.rows k t || (bytes_eq key k && S.member set t))) }
        ensures keys { (p : List ℕ → Bool) → list_all (λ r. p r.key) self.old.rows ≡ true → p key ≡ true
            → list_all (λ r. p r.key) self.new.rows ≡ true }
        ensures head { IsSameHead self.old self.new }
        ensures err { OnErr result (self.new ≡ self.old) }
    {
        if set.is_empty() {
            return Ok(());
        }
        self.rows.push(Row { key, set })?;
        Ok(())
    }

    /// The variables, in the order of the keys.
    #[inline]
    pub fn vars(&self) -> &[u8]
        ensures value { result.now ≡ self.now.vars }
        ensures few { FitInQuery result.now }
        ensures known { are_known self.now.domains result.now ≡ true }
        ensures distinct { are_distinct result.now ≡ true }
    {
        self.vars.vars()
    }

    /// The objects that each variable ranges over.
    #[inline]
    pub fn domains(&self) -> &'d Domains
        ensures { result.now ≡ self.now.domains }
    {
        self.domains
    }

    /// The window.
    #[inline]
    pub fn window(&self) -> Window
        ensures { (result.lo ≡ self.now.lo) × (result.hi ≡ self.now.hi) }
    {
        self.window
    }

    /// The rows, in ascending order of the bindings. None is copied.
    #[inline]
    pub fn into_rows(self) -> Vec<Row<S>>
        ensures { result.items ≡ self.entry.rows }
    {
        self.rows
    }

    // The rows, in ascending order of the keys.
    #[inline]
    pub(crate) fn rows(&self) -> &[Row<S>]
        ensures value { result.now ≡ self.now.rows }
        ensures ordered { IsTable S.member self.now }
    {
        &self.rows
    }
}
