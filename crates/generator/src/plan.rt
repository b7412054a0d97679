//! Which lines come, in order.
ghost use Rattle.std.specs.Prelude.{◌≡◌, ◌<◌, ◌==◌, slice_get, IfSome, if◌then◌else◌};
ghost use Rattle.generator.specs.declared.plan.Line.TheVariants as lines;
ghost use Rattle.generator.specs.Lines.{plan};

/// The cars, all inserted before the first round.
pub const CARS: u32 = 200;

/// The regions.
pub const REGIONS: u32 = 20;

/// The watched queries.
pub const WATCHES: u32 = 3;

/// The rounds, each of 60 ticks and then the updates.
pub const ROUNDS: u32 = 60;

/// The updates of a round.
pub const UPDATES: u32 = 10;

/// The lines of each number.
pub const LINES: u32 = END;

// The places, from 0, at which lines of another kind begin. The regions begin after the class.
const FIRST_INSERT: u32 = 1 + REGIONS;

const FIRST_WATCH: u32 = FIRST_INSERT + CARS;

const FIRST_ROUND: u32 = FIRST_WATCH + WATCHES;

const ROUND: u32 = 1 + UPDATES;

const FIRST_SHOW: u32 = FIRST_ROUND + ROUNDS * ROUND;

const END: u32 = FIRST_SHOW + WATCHES;

/// What a line is, and of which number it is where there are several.
#[derive(Clone, Copy)]
pub(crate) enum Line {
    Class,
    Region(u32),
    Insert(u32),
    Watch(u32),
    Tick,
    Update,
    Show(u32),
}

/// The line at a place, counted from 0.
#[tactic(auto, using(crate::proofs::PlanLemmas::as_planned))]
pub(crate) fn line_at(place: u32) -> Option<Line>
    ensures value { result ≡ slice_get plan place }
    ensures within { IfSome result (λ _. place < LINES) }
{
    Some(if place == 0 {
        Line::Class
    } else if place < FIRST_INSERT {
        Line::Region(place - 1)
    } else if place < FIRST_WATCH {
        Line::Insert(place - FIRST_INSERT)
    } else if place < FIRST_ROUND {
        Line::Watch(place - FIRST_WATCH)
    } else if place < FIRST_SHOW {
        line_of_round((place - FIRST_ROUND) % ROUND)
    } else if place < END {
        Line::Show(place - FIRST_SHOW)
    } else {
        return None;
    })
}

/// The line at a place of a round.
fn line_of_round(place: u32) -> Line
    ensures { result ≡ (if place == 0 then lines.Tick else lines.Update) }
{
    if place == 0 { Line::Tick } else { Line::Update }
}
