//! Several users who share one world.
ghost use Rattle.std.specs.Prelude.{◌≡◌, ◌++◌, IfOk, OnErr, OnOk, Some};
ghost use Rattle.feeds_meaning.specs.Hub.{Hub as Users, empty_hub, hub_step};
ghost use Rattle.hub.specs.Told.{AreRightParts, IsLineTold, hub_of};

use crate::answer::answer_line;
use crate::parts::Parts;
use std::alloc::{AllocError, Global};
use std::marker::Model;
use std::sync::ledger::Ledger;
use steps::Steps;

/// Up to eight users who share one world, seen as what is held of each user's lines.
#[derive(Drop)]
pub struct Hub {
    parts: Parts,
}

impl Model for Hub {
    ghost use Rattle.std.specs.Prelude.{ℕ, List};
    ghost use Rattle.std.specs.Coded.{codes};
    ghost use Rattle.formula_shape.specs.ShapeCode.{shape_code};
    ghost use Rattle.ftl_parser.specs.declared.tree.Atom.{Atom};
    ghost use Rattle.ftl_parser.specs.declared.tree.Term.{Term};
    ghost use Rattle.feeds_meaning.specs.Hub.{Hub as Users};
    ghost use Rattle.hub.specs.Told.{AreRightParts, hub_of};

    ghost Value = { Users };

    ghost coded = { Prim.hlevel (codes, shape_code {A = Atom} {B = List ℕ × Term} (Prim.hlevel codes)) };

    ghost view = { λ a. hub_of a.parts };

    ghost invariant = { λ a. AreRightParts a.parts };
}

impl Hub {
    /// No users. It takes no memory.
    pub fn new(alloc: Global) -> Hub
        ensures { result ≡ empty_hub }
    {
        Hub {
            parts: Parts::new(alloc),
        }
    }

    /// Answers a line of input, without its line feed: a user, one space and a line of DOMINO. Appends what each user is told
    /// of it to `out`, each line after the user and a space. Want of memory spends the hub, and leaves `out` as it was.
    pub fn apply<L: Ledger, M: Ledger>(
        self,
        line: &[u8],
        out: &mut Vec<u8>,
        reads: &mut Steps<L>,
        probes: &mut Steps<M>,
    ) -> Result<Hub, AllocError>
        ensures ok { IfOk result (λ hub. IsLineTold self hub line.now out.old.items out.new.items) }
        ensures err { OnErr result (out.new.items ≡ out.old.items) }
    {
        let mut parts = self.parts;
        answer_whole(&mut parts, line, out, reads, probes)?;
        Ok(Hub { parts })
    }
}

/// Answers a line of input, as [`Hub::apply`] does. Without memory the parts are no hub any more.
fn answer_whole<L: Ledger, M: Ledger>(
    parts: &mut Parts,
    line: &[u8],
    out: &mut Vec<u8>,
    reads: &mut Steps<L>,
    probes: &mut Steps<M>,
) -> Result<(), AllocError>
    requires { AreRightParts parts.old }
    ensures answered { OnOk result (IsLineTold (hub_of parts.old) (hub_of parts.new) line.now out.old.items out.new.items) }
    ensures hub { OnOk result (AreRightParts parts.new) }
    ensures err { OnErr result (out.new.items ≡ out.old.items) }
{
    let before = out.len();
    match answer_line(parts, line, out, reads, probes) {
        Ok(()) => Ok(()),
        Err(AllocError) => {
            out.truncate(before);
            Err(AllocError)
        }
    }
}

/// A hub that stays where it is from line to line, until want of memory spends it: seen as the hub, and as none from then
/// on.
#[derive(Drop)]
pub struct Serving {
    parts: Parts,
    is_spent: bool,
}

impl Model for Serving {
    ghost use Rattle.std.specs.Prelude.{◌≡◌, ℕ, Option, false, List};
    ghost use Rattle.std.specs.Coded.{codes};
    ghost use Rattle.formula_shape.specs.ShapeCode.{shape_code};
    ghost use Rattle.ftl_parser.specs.declared.tree.Atom.{Atom};
    ghost use Rattle.ftl_parser.specs.declared.tree.Term.{Term};
    ghost use Rattle.feeds_meaning.specs.Hub.{Hub as Users};
    ghost use Rattle.hub.specs.Told.{AreRightParts, served};

    ghost Value = { Option Users };

    ghost coded = { Prim.hlevel (codes, shape_code {A = Atom} {B = List ℕ × Term} (Prim.hlevel codes)) };

    ghost view = { λ s. served s.parts s.is_spent };

    ghost invariant = { λ s. s.is_spent ≡ false → AreRightParts s.parts };
}

impl Serving {
    /// The hub, which isn't spent.
    pub(crate) fn of(hub: Hub) -> Serving
        ensures { result ≡ Some hub }
    {
        Serving {
            parts: hub.parts,
            is_spent: false,
        }
    }

    /// Answers a line of input, as [`Hub::apply`] does.
    pub(crate) fn answer<L: Ledger, M: Ledger>(
        &mut self,
        line: &[u8],
        out: &mut Vec<u8>,
        reads: &mut Steps<L>,
        probes: &mut Steps<M>,
    ) -> Result<(), AllocError>
        ensures { (hub : Users) → self.old ≡ Some hub →
            OnOk result ((out.new.items ≡ out.old.items ++ (hub_step hub line.now).1) × (self.new ≡ Some (hub_step hub line.now).0)) }
    {
        if self.is_spent {
            return Err(AllocError);
        }
        match answer_whole(&mut self.parts, line, out, reads, probes) {
            Ok(()) => Ok(()),
            Err(AllocError) => {
                self.is_spent = true;
                Err(AllocError)
            }
        }
    }
}
