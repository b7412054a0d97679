//! What is prepared of a write.
ghost use Rattle.std.specs.Prelude.{◌≡◌, ◌<◌, ◌++◌, ◌∷◌, [], None, length, IsOk, OnOk};
ghost use Rattle.formula.specs.declared.limits.TheConstants.{QUERY_LIMIT};
ghost use Rattle.live_queries.specs.Untouched.{or_untouched, spread, untouched};

use formula::ClassNo;
use interval_set::IntervalSet;
use kept_rows::Changes;
use std::alloc::{AllocError, Global};
use std::marker::Model;
use std::vec::IntoIter;

/// What a write makes of one query: whether its variables of the object's class get the object as one more, and the
/// changes of its rows.
#[derive(Drop)]
pub(crate) struct Renewal {
    pub(crate) grows: bool,
    pub(crate) changes: Changes<IntervalSet>,
}

/// A query that a write touches, and how many stand before it, after the one that is touched before it.
#[derive(Drop)]
pub(crate) struct Touched {
    pub(crate) passed: usize,
    pub(crate) renewal: Renewal,
}

/// What a write makes of each query, in the order of registration. A query that it doesn't touch has no entry.
#[derive(Drop)]
pub(crate) struct Renewals {
    touched: Vec<Touched>,
    // How many queries stand after the last one that is touched.
    rest: usize,
}

impl Model for Renewals {
    ghost use Rattle.std.specs.Prelude.{List};
    ghost use Rattle.live_queries.specs.declared.fresh.Renewal.{Renewal};
    ghost use Rattle.live_queries.specs.Untouched.{spread};

    ghost Value = { List Renewal };

    ghost view = { λ a. spread a.touched.items a.rest };
}

impl Renewals {
    /// Those of no query. They take no memory.
    pub(crate) fn new(alloc: Global) -> Renewals
        ensures { result ≡ [] }
    {
        Renewals {
            touched: Vec::new(alloc),
            rest: 0,
        }
    }

    /// Adds what is made of the next query, nothing where there is none. That takes no memory;
    /// it fails only where memory is out.
    pub(crate) fn add(&mut self, renewal: Option<Renewal>) -> Result<(), AllocError>
        requires { length self.old < QUERY_LIMIT }
        ensures added { OnOk result (self.new ≡ self.old ++ or_untouched renewal ∷ []) }
        ensures free { renewal ≡ None → IsOk result }
    {
        match renewal {
            Some(renewal) => {
                let passed = self.rest;
                self.touched.push(Touched { passed, renewal })?;
                self.rest = 0;
            }
            None => self.pass(),
        }
        Ok(())
    }

    /// The next query is passed over: nothing is made of it.
    #[inline]
    pub(crate) fn pass(&mut self)
        requires { length self.old < QUERY_LIMIT }
        ensures { self.new ≡ self.old ++ untouched ∷ [] }
    {
        self.rest += 1;
    }

    /// The queries that are touched, and how many stand after the last of them.
    #[inline]
    pub(crate) fn parts(&self) -> (&[Touched], usize)
        ensures { spread result.0.now result.1 ≡ self.now }
    {
        (&self.touched, self.rest)
    }

    /// The same, so that what they hold can be taken.
    #[inline]
    pub(crate) fn into_parts(self) -> (IntoIter<Touched>, usize)
        ensures { spread result.0.rest.items result.1 ≡ self }
    {
        (self.touched.into_iter(), self.rest)
    }
}

/// What a write to an object makes of the registered queries, with the memory that it needs to be made.
#[derive(Drop)]
pub struct Fresh {
    pub(crate) object: u32,
    pub(crate) class: ClassNo,
    pub(crate) renewals: Renewals,
}

impl Model for Fresh {
    ghost use Rattle.live_queries.specs.Prepared.{Prepared};

    ghost Value = { Prepared };

    ghost view = { λ a. record { object = a.object; class = a.class; renewals = a.renewals } };
}
