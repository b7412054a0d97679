//! Guesses by floating point of where a parabola is least, and where it is 0. Nothing but their range is promised: who
//! uses one looks at the values there.
ghost use Rattle.std.specs.Prelude.{◌≤◌};

use std::num::{nearest_u64_to_f64, saturating_f64_to_u32};

/// About the number of `0..=last` at which the parabola is least.
#[inline]
pub fn lowest(quadratic: u64, linear: i128, last: u32) -> u32
    ensures { result ≤ last }
{
    if 0 <= linear {
        return 0;
    }
    let fall = rounded(linear.unsigned_abs());
    closest(0.5 * fall / nearest_u64_to_f64(quadratic) + 0.5, last)
}

/// About where a parabola is 0, by floats: its quadratic part, half of its linear one, its constant, and how far either
/// root is from where it is least, times the quadratic part.
#[derive(Clone, Copy)]
pub struct Roots {
    bend: f64,
    slope: f64,
    start: f64,
    around: f64,
}

impl Roots {
    pub fn of(quadratic: u64, linear: i128, constant: i128) -> Roots {
        let bend = nearest_u64_to_f64(quadratic);
        let slope = 0.5 * signed(linear);
        let start = signed(constant);
        let around = (slope * slope - bend * start).max(0.0).sqrt();
        Roots {
            bend,
            slope,
            start,
            around,
        }
    }

    /// The number of `0..=last` up to which the first root reaches.
    #[inline]
    pub fn first(&self, last: u32) -> u32
        ensures { result ≤ last }
    {
        // No difference is taken of numbers that may be nearly the same; nor is one for the second root.
        if self.slope < 0.0 {
            closest(self.start / (self.around - self.slope), last)
        } else {
            closest((-self.around - self.slope) / self.bend, last)
        }
    }

    /// The number of `0..=last` up to which the second root reaches.
    #[inline]
    pub fn second(&self, last: u32) -> u32
        ensures { result ≤ last }
    {
        if self.slope < 0.0 {
            closest((self.around - self.slope) / self.bend, last)
        } else {
            closest(self.start / (-self.around - self.slope), last)
        }
    }
}

// The number of `0..=last` up to which a place reaches.
#[inline]
fn closest(place: f64, last: u32) -> u32
    ensures { result ≤ last }
{
    saturating_f64_to_u32(place).min(last)
}

#[inline]
fn signed(number: i128) -> f64 {
    let size = rounded(number.unsigned_abs());
    if number < 0 { -size } else { size }
}

// A number as a float, by its two halves.
#[inline]
fn rounded(number: u128) -> f64 {
    let high = (number >> 64) as u64;
    let low = (number & 0xffff_ffff_ffff_ffff) as u64;
    nearest_u64_to_f64(high) * 18446744073709551616.0 + nearest_u64_to_f64(low)
}
