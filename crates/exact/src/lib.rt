//! Exact arithmetic on 128-bit signed numbers, one operation a call.
//!
//! A nested signed expression leaves a proof with many conversions at once. Code that needs exact products
//! and sums of 128 bits therefore takes one step a call. Each call says which value it gives and how large
//! that is, so the premise of the next step follows from the sizes of its parts, by
//! `grind (arith, steps)` with the set `steps` of `proofs/Sizes.antt`.
//!
//! Its `specs/` has what the crates above define in one way: the first condition that holds (`First`),
//! what is asked next of an option's value (`Options`), items in the front of an array (`Padded`), and
//! functions that fall and rise (`Rising`). Its
//! `proofs/` has the facts that they share: equations of polynomials over the integers (`Ring`),
//! functions that fall and rise (`Convex`), bisections (`Halves`), tests of lists and lists of bytes
//! (`Lists`) and what an array has in its front (`PaddedLemmas`).
#![tactic(auto)]

ghost use Rattle.std.specs.Prelude.{
  ◌≡◌,
  ◌+◌,
  ◌*◌,
  ◌^◌,
  ◌<◌,
  ◌≤◌,
  ◌+ℤ◌,
  ◌-ℤ◌,
  ◌*ℤ◌,
  neg_ℤ,
  unsigned_abs,
};

/// The product of two numbers, of absolute values whose product is below 2^127.
#[inline]
pub fn times(a: i128, b: i128) -> i128
    requires { unsigned_abs a * unsigned_abs b < 2 ^ 127 }
    ensures value { result ≡ a *ℤ b }
    ensures size { unsigned_abs result ≡ unsigned_abs a * unsigned_abs b }
{
    a * b
}

/// The sum of two numbers, of absolute values whose sum is below 2^127.
#[inline]
pub fn plus(a: i128, b: i128) -> i128
    requires { unsigned_abs a + unsigned_abs b < 2 ^ 127 }
    ensures value { result ≡ a +ℤ b }
    ensures size { unsigned_abs result ≤ unsigned_abs a + unsigned_abs b }
{
    a + b
}

/// The first number less the second, of absolute values whose sum is below 2^127.
#[inline]
pub fn minus(a: i128, b: i128) -> i128
    requires { unsigned_abs a + unsigned_abs b < 2 ^ 127 }
    ensures value { result ≡ a -ℤ b }
    ensures size { unsigned_abs result ≤ unsigned_abs a + unsigned_abs b }
{
    a - b
}

/// The number with the other sign, of an absolute value below 2^127.
#[inline]
pub fn negated(a: i128) -> i128
    requires { unsigned_abs a < 2 ^ 127 }
    ensures value { result ≡ neg_ℤ a }
    ensures size { unsigned_abs result ≡ unsigned_abs a }
{
    -a
}
