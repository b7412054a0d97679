ghost use Rattle.std.specs.Prelude.{◌≡◌, ◌∷◌, [], true, IfOk, IfSome};
ghost use Rattle.formula.specs.Resolved.{is_atom, no_scope};
ghost use Rattle.formula.specs.Tree.{resolved_view};
ghost use Rattle.formula_shape.specs.Shape as shapes;
ghost use Rattle.history.specs.History.{history};
ghost use Rattle.meaning.specs.Fits.{atom_fits, no_kinds};
ghost use Rattle.object_store.specs.Contents.{history_of};
ghost use Rattle.asking_tests.specs.Passing.{writes};

use crate::counted::{Asked, with_counters};
use crate::near::are_spans;
use crate::owned::spent;
use crate::passing::{passed_post, square};
use crate::surely::Question::{Apart, FromItself, Inside, Outside, PostOutside};
use crate::written::number;
use blur::{Blur, BlurredWorld, blurred};
use case_table::Op;
use fixed_point::Items;
use formula::{RAtom, RFormula, RQuery};
use interval_set::IntervalSet;
use object_store::Store;
use relation::{Domains, Relation};
use std::alloc::{AllocError, Global};
use std::process::Abort;
use std::sync::ledger::Ledger;
use std::test::Fail;
use steps::Steps;
use tick_set::{Span, Window};

type Ends = (u32, u32);

// What is asked of a car and a post: whether one of them is in the square or isn't, and how far the car is from the post,
// or from itself, in thousandths.
#[derive(Clone, Copy)]
enum Question {
    Inside,
    Outside,
    PostOutside,
    Apart(Op, i64),
    FromItself(Op, i64),
}

struct Case {
    says: &'static str,
    asked: Question,
    // Whether what surely holds is asked for, and the error in thousandths.
    sure: bool,
    error: u32,
    runs: &'static [Ends],
}

// The car is at (t,3), the post at (10,0) until it is removed at tick 25, and the square is 10 to 20 along x. Nothing holds
// once one of the two is gone.
const CASES: &[Case] = &[
    // t - 1 and t + 1 are from 10 to 20.
    Case {
        says: "all that it may be at is inside",
        asked: Inside,
        sure: true,
        error: 1000,
        runs: &[(11, 19)],
    },
    // One of them is.
    Case {
        says: "something that it may be at is inside",
        asked: Inside,
        sure: false,
        error: 1000,
        runs: &[(9, 21)],
    },
    Case {
        says: "too wide for the square",
        asked: Inside,
        sure: true,
        error: 5001,
        runs: &[],
    },
    Case {
        says: "surely outside is not possibly inside",
        asked: Outside,
        sure: true,
        error: 1000,
        runs: &[(0, 8), (22, 24)],
    },
    Case {
        says: "possibly outside is not surely inside",
        asked: Outside,
        sure: false,
        error: 1000,
        runs: &[(0, 10), (20, 24)],
    },
    Case {
        says: "the post is at the edge",
        asked: PostOutside,
        sure: false,
        error: 1,
        runs: &[(0, 24)],
    },
    // (|10 - t| + 1)² + (3 + 1)² is less than 25.
    Case {
        says: "the greatest distance is less",
        asked: Apart(Op::Lt, 5000),
        sure: true,
        error: 500,
        runs: &[(9, 11)],
    },
    // (|10 - t| - 1)² + (3 - 1)² is less than 25.
    Case {
        says: "the least distance is less",
        asked: Apart(Op::Lt, 5000),
        sure: false,
        error: 500,
        runs: &[(5, 15)],
    },
    // One is at most 25, and the other one at least.
    Case {
        says: "between the least and the greatest distance",
        asked: Apart(Op::Eq, 5000),
        sure: false,
        error: 500,
        runs: &[(5, 8), (12, 15)],
    },
    Case {
        says: "at no tick exactly",
        asked: Apart(Op::Eq, 5000),
        sure: true,
        error: 500,
        runs: &[],
    },
    Case {
        says: "surely another distance, while there is a post",
        asked: Apart(Op::Ne, 5000),
        sure: true,
        error: 500,
        runs: &[(0, 4), (9, 11), (16, 24)],
    },
    Case {
        says: "more than a negative number",
        asked: Apart(Op::Gt, -1),
        sure: true,
        error: 500,
        runs: &[(0, 24)],
    },
    Case {
        says: "no less than a negative number",
        asked: Apart(Op::Le, -1),
        sure: false,
        error: 500,
        runs: &[],
    },
    Case {
        says: "at no distance from itself",
        asked: FromItself(Op::Eq, 0),
        sure: true,
        error: 5000,
        runs: &[(0, 24)],
    },
    Case {
        says: "never away from itself",
        asked: FromItself(Op::Ne, 0),
        sure: false,
        error: 5000,
        runs: &[],
    },
    Case {
        says: "never further from itself",
        asked: FromItself(Op::Gt, 0),
        sure: false,
        error: 5000,
        runs: &[],
    },
];

// The car is the object of the first variable, and the post that of the second.
fn atom_of(asked: Question) -> Option<RAtom>
    ensures is { IfSome result (λ a. is_atom 2 no_scope a ≡ true) }
    ensures fits { IfSome result (λ a. atom_fits (history writes).catalog (0 ∷ 1 ∷ []) 1 no_kinds a ≡ true) }
{
    match asked {
        Question::Inside => Some(RAtom::Inside(0, 0)),
        Question::Outside => Some(RAtom::Outside(0, 0)),
        Question::PostOutside => Some(RAtom::Outside(1, 0)),
        Question::Apart(op, c) => Some(RAtom::Dist(0, 1, op, number(c)?)),
        Question::FromItself(op, c) => Some(RAtom::Dist(0, 0, op, number(c)?)),
    }
}

// The car, and the post.
fn car_and_post(alloc: Global) -> Result<Domains, AllocError>
    ensures { IfOk result (λ d. d ≡ (0 ∷ []) ∷ (1 ∷ []) ∷ []) }
{
    let mut domains = Domains::new(alloc);
    domains.push(alloc, &[0])?;
    domains.push(alloc, &[1])?;
    Ok(domains)
}

// RETRIEVE o FROM car o,post n WHERE the atom
fn query_of(alloc: Global, atom: RAtom) -> Result<RQuery, AllocError>
    ensures { IfOk result (λ q. resolved_view q ≡ record { targets = 0 ∷ []; classes = 0 ∷ 1 ∷ []; formula = shapes.Atom atom }) }
{
    let mut targets = Items::new(alloc);
    targets.push(0)?;
    let mut classes = Items::new(alloc);
    classes.push(0)?;
    classes.push(1)?;
    Ok(RQuery {
        targets,
        classes,
        formula: RFormula::Atom(atom),
    })
}

// The runs of the only row. None where there is no row.
fn only_runs<'a>(rows: &'a Relation<IntervalSet>) -> &'a [Span] {
    match rows.set_at(0) {
        Some(ticks) => ticks.spans(),
        None => &[],
    }
}

// Whether these are the runs of the ticks from 0 to 30 at which an atom holds of the car and the post.
fn are_its_runs<L: Ledger, M: Ledger>(
    alloc: Global,
    atom: RAtom,
    blur: Blur,
    runs: &[Ends],
    reads: &mut Steps<L>,
    probes: &mut Steps<M>,
) -> Result<bool, Fail>
    requires is { is_atom 2 no_scope atom ≡ true }
    requires fits { atom_fits (history writes).catalog (0 ∷ 1 ∷ []) 1 no_kinds atom ≡ true }
{
    let store = passed_post(alloc)?;
    let found = are_runs_in(alloc, &store, atom, blur, runs, reads, probes);
    spent(store, found)
}

fn are_runs_in<L: Ledger, M: Ledger>(
    alloc: Global,
    store: &Store,
    atom: RAtom,
    blur: Blur,
    runs: &[Ends],
    reads: &mut Steps<L>,
    probes: &mut Steps<M>,
) -> Result<bool, Fail>
    requires told { history_of store.now ≡ history writes }
    requires is { is_atom 2 no_scope atom ≡ true }
    requires fits { atom_fits (history writes).catalog (0 ∷ 1 ∷ []) 1 no_kinds atom ≡ true }
{
    let regions = square(alloc)?;
    let domains = car_and_post(alloc)?;
    let query = query_of(alloc, atom)?;
    let world = BlurredWorld {
        store,
        regions: &regions,
        blur,
    };
    let w = Window::new(0, 30).unwrap();
    let rows = blurred(alloc, &query, &domains, &world, w, reads, probes)?;
    Ok(are_spans(only_runs(&rows), runs))
}

fn is_right<L: Ledger, M: Ledger>(
    alloc: Global,
    case: &Case,
    reads: &mut Steps<L>,
    probes: &mut Steps<M>,
) -> Result<bool, Fail> {
    let blur = Blur {
        sure: case.sure,
        error: case.error,
    };
    match atom_of(case.asked) {
        Some(atom) => are_its_runs(alloc, atom, blur, case.runs, reads, probes),
        None => Err("no such number".into()),
    }
}

pub(crate) fn cases_are_right<L: Ledger, M: Ledger>(
    rt: &impl Abort,
    alloc: Global,
    reads: &mut Steps<L>,
    probes: &mut Steps<M>,
) -> Result<(), Fail> {
    for case in CASES {
        let right = is_right(alloc, case, reads, probes)?;
        assert!(rt; right, "{}", case.says);
    }
    Ok(())
}

#[test]
fn atoms_hold_surely_and_possibly(rt: HostRuntime) -> Result<(), Fail> {
    with_counters(&rt, &rt, Asked::Surely)
}
