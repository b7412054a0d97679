//! The replica of one query's answer.
ghost use Rattle.std.specs.Prelude.{◌≡◌, ◌++◌, ◌+◌, decimal, codes, Some, is_some, OnOk, OnErr, IfOk};
ghost use Rattle.replica.specs.Text.{Begins};
ghost use Rattle.replica.specs.Feed.{next_hearing, said, silent};
ghost use Rattle.replica.specs.Rows.{line_feed};

use crate::copied::{Copied, is_broken, starting_after, take};
use crate::line::line_of;
use itoa::Buffer;
use std::alloc::{AllocError, Global};
use std::marker::Model;

/// Follows one query by the lines that one user hears.
#[derive(Drop)]
pub struct Replica {
    alloc: Global,
    name: Vec<u8>,
    copy: Option<Copied>,
    starting: bool,
    lines: u64,
    bad: Option<u64>,
}

impl Model for Replica {
    ghost use Rattle.replica.specs.Feed.{Hearing};

    ghost Value = { Hearing };

    ghost view = { λ r. record { name = r.name.items; copy = r.copy; starting = r.starting; lines = r.lines; bad = r.bad } };
}

impl Replica {
    /// Before the first line, of the query of this name.
    pub fn new(alloc: Global, name: &[u8]) -> Result<Replica, AllocError>
        ensures { IfOk result (λ r. r ≡ silent name.now) }
    {
        Ok(Replica {
            alloc,
            name: Vec::from_slice(alloc, name)?,
            copy: None,
            starting: false,
            lines: 0,
            bad: None,
        })
    }

    /// Takes a line, without its end. After an error the replica is as before: where memory is out, or the lines can't
    /// be counted any more.
    pub fn hear(&mut self, line: &[u8]) -> Result<(), AllocError>
        ensures ok { OnOk result (self.new ≡ next_hearing self.old line.now) }
        ensures err { OnErr result (self.new ≡ self.old) }
    {
        if self.bad.is_some() {
            return Ok(());
        }
        let Some(number) = self.lines.checked_add(1) else {
            return Err(AllocError);
        };
        let message = line_of(self.alloc, &self.name, line)?;
        let broken = is_broken(&message);
        let starting = starting_after(self.starting, &message);
        take(&mut self.copy, self.alloc, self.starting, message)?;
        self.starting = starting;
        self.lines = number;
        self.bad = if broken { Some(number) } else { None };
        Ok(())
    }

    /// Whether a line hadn't its form. No more are taken then.
    pub fn is_done(&self) -> bool
        ensures { result ≡ is_some self.now.bad }
    {
        self.bad.is_some()
    }

    /// Writes the rows, or which line hasn't its form. After an error `out` begins with its old contents, and may hold a part of
    /// that.
    #[tactic(auto, using(crate::proofs::BeginLemmas::begins_through, crate::proofs::BeginLemmas::begins_more))]
    pub fn push_said(&self, out: &mut Vec<u8>) -> Result<(), AllocError>
        ensures ok { OnOk result (out.new.items ≡ out.old.items ++ said self.now) }
        ensures begins { Begins out.old.items out.new.items }
    {
        match (self.bad, &self.copy) {
            (Some(number), _) => push_bad(number, out),
            (None, Some(copied)) => copied.push_text(out),
            (None, None) => Ok(()),
        }
    }
}

#[tactic(auto, using(crate::proofs::BeginLemmas::begins_through, crate::proofs::BeginLemmas::begins_more))]
fn push_bad(number: u64, out: &mut Vec<u8>) -> Result<(), AllocError>
    ensures ok { OnOk result (out.new.items ≡ out.old.items ++ codes "bad feed " ++ decimal number ++ line_feed) }
    ensures begins { Begins out.old.items out.new.items }
{
    out.extend_from_slice(b"bad feed ")?;
    out.extend_from_slice(Buffer::new().format(number).as_bytes())?;
    out.extend_from_slice(b"\n")?;
    Ok(())
}
