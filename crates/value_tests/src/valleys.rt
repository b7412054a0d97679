use convex::{Convex, at_most};
use tick_set::Window;

// The square of how far a number is from 5.
struct Valley;

impl Convex for Valley {
    ghost use Rattle.std.specs.Prelude.{pos, negsuc};
    ghost use Rattle.convex.specs.Parabola.{parabola};
    ghost use Rattle.convex.proofs.CallerLemmas.{parabola_bends};

    ghost value = { λ _. parabola 1 (negsuc 9) (pos 25) };

    ghost reach = { λ _. 1000 };

    fn at(&self, k: u32) -> i128 {
        let from = i128::from(k);
        from * from - 10 * from + 25
    }

    ghost bends = { λ _. parabola_bends 1 (negsuc 9) (pos 25) };
}

// A limit, and the ticks of the window from 100 to 200 at which the function of the ticks since 100 is at most it.
const LOW: &[(i128, Option<(u32, u32)>)] = &[
    (-1, None),
    (0, Some((105, 105))),
    (8, Some((103, 107))),
    (25, Some((100, 110))),
    (10_000, Some((100, 200))),
];

fn low_at(limit: i128) -> Option<(u32, u32)> {
    let window = Window::new(100, 200)?;
    if window.hi - window.lo > 1000 {
        return None;
    }
    at_most(&Valley, limit, window).map(|span| (span.lo, span.hi))
}

#[test]
fn a_convex_function_is_low_in_one_stretch(rt: HostRuntime) {
    for &(limit, wanted) in LOW {
        assert!(rt; low_at(limit) == wanted, "at most {limit}");
    }
}
