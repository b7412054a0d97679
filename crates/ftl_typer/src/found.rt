//! The faults of a query that were found so far: the least place of each kind.
ghost use Rattle.std.specs.Prelude.{◌≡◌, ◌∷◌, []};
ghost use Rattle.ftl_typer.specs.Fault.{fault_if};
ghost use Rattle.ftl_typer.specs.First.{first_found, found_after, lesser, nothing_found};

use crate::TypeFault;

/// What is wrong, in the order in which faults are judged.
#[derive(Clone, Copy, Debug)]
pub enum FaultKind {
    UnknownName,
    NameTaken,
    WrongKind,
    TermRange,
}

/// The least place of each kind of fault. None where there is no such fault.
#[derive(Clone, Copy, Debug)]
pub struct Found {
    unknown: Option<usize>,
    taken: Option<usize>,
    kind: Option<usize>,
    range: Option<usize>,
}

impl Found {
    /// No faults.
    pub fn new() -> Found
        ensures { result ≡ nothing_found }
    {
        Found {
            unknown: None,
            taken: None,
            kind: None,
            range: None,
        }
    }

    /// Notes a fault of a kind at a place where something is wrong.
    #[tactic(auto, using(crate::proofs::FoundLemmas::found_none))]
    pub fn note_if(&mut self, wrong: bool, kind: FaultKind, place: usize)
        ensures { self.new ≡ found_after self.old (fault_if wrong kind place) }
    {
        if wrong {
            self.note(kind, place);
        }
    }

    #[tactic(auto, unfolding(crate::specs::First::found_after))]
    fn note(&mut self, kind: FaultKind, place: usize)
        ensures { self.new ≡ found_after self.old (record { kind = kind; place = place } ∷ []) }
    {
        match kind {
            FaultKind::UnknownName => self.unknown = lesser(self.unknown, place),
            FaultKind::NameTaken => self.taken = lesser(self.taken, place),
            FaultKind::WrongKind => self.kind = lesser(self.kind, place),
            FaultKind::TermRange => self.range = lesser(self.range, place),
        }
    }

    /// The fault of the least kind, at its least place.
    pub fn first(&self) -> Option<TypeFault>
        ensures { result ≡ first_found self.now }
    {
        if let Some(place) = self.unknown {
            return Some(TypeFault::UnknownName(place));
        }
        if let Some(place) = self.taken {
            return Some(TypeFault::NameTaken(place));
        }
        if let Some(place) = self.kind {
            return Some(TypeFault::WrongKind(place));
        }
        let place = self.range?;
        Some(TypeFault::TermRange(place))
    }
}

fn lesser(least: Option<usize>, place: usize) -> Option<usize>
    ensures { result ≡ lesser least place }
{
    match least {
        Some(least) => Some(least.min(place)),
        None => Some(place),
    }
}
