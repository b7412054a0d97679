//! The canonical text of a number.
ghost use Rattle.std.specs.Prelude.{◌≡◌, ◌+◌, ◌<◌, ◌≤◌, ◌++◌, ◌∷◌, [], length};
ghost use Rattle.std.specs.Fmt.{decimal};
ghost use Rattle.fixed_point.specs.Decimal.{decimals_text};
ghost use Rattle.fixed_point.specs.Canonical.{three_digits, without_last_zeros};

use std::marker::Model;

/// The most bytes of a `FixText`: a sign, 16 digits, a point and three decimals.
pub const FIX_TEXT_LIMIT: usize = 21;

/// The text of a number, whose bytes lie in the value itself.
#[derive(Clone, Copy, Debug)]
pub struct FixText {
    // The text is at the end. Those in front of the start are 0, so that a text has one form alone.
    bytes: [u8; FIX_TEXT_LIMIT],
    start: u8,
}

impl Model for FixText {
    ghost use Rattle.std.specs.Prelude.{List, ℕ, ◌-◌, length, drop};
    ghost use Rattle.fixed_point.specs.AtEnd.{IsAtEnd, at_end, at_end-drop, start-drop};
    ghost use Rattle.fixed_point.specs.declared.number_text.TheConstants.{FIX_TEXT_LIMIT};

    ghost Value = { List ℕ };

    ghost view = { λ a. drop a.start a.bytes };

    ghost invariant = { λ a. IsAtEnd FIX_TEXT_LIMIT a.bytes a.start };

    ghost inverse = { λ text. record { bytes = at_end FIX_TEXT_LIMIT text; start = FIX_TEXT_LIMIT - length text } };

    ghost inverse_ok = { λ a h i. record { bytes = at_end-drop FIX_TEXT_LIMIT a.bytes a.start h i; start = start-drop FIX_TEXT_LIMIT a.bytes a.start h i } };
}

impl FixText {
    /// The bytes.
    #[inline]
    pub fn bytes(&self) -> &[u8]
        ensures value { result.now ≡ self.now }
        ensures short { length self.now ≤ FIX_TEXT_LIMIT }
    {
        &self.bytes[self.start as usize..]
    }

    #[inline]
    pub(crate) fn empty() -> FixText
        ensures { result ≡ [] }
    {
        FixText {
            bytes: [0; FIX_TEXT_LIMIT],
            start: FIX_TEXT_LIMIT as u8,
        }
    }

    #[inline]
    pub(crate) fn prepend(&mut self, byte: u8)
        requires { length self.old < FIX_TEXT_LIMIT }
        ensures { self.new ≡ byte ∷ self.old }
    {
        self.start -= 1;
        self.bytes[self.start as usize] = byte;
    }

    // The last digit is written first, so that nothing has to be moved.
    #[inline]
    #[tactic(auto, using(crate::proofs::WholeLemmas::whole_steps))]
    pub(crate) fn prepend_whole(&mut self, whole: u64)
        requires { length (decimal whole ++ self.old) ≤ FIX_TEXT_LIMIT }
        ensures { self.new ≡ decimal whole ++ self.old }
    {
        let mut rest = whole;
        while rest >= 10 {
            self.prepend(b'0' + (rest % 10) as u8);
            rest /= 10;
        }
        self.prepend(b'0' + rest as u8);
    }

    // Writes a point and the decimals without zeros at their end, or nothing where all are zeros.
    #[inline]
    pub(crate) fn prepend_decimals(&mut self, thousandths: u64)
        requires decimals { thousandths < 1000 }
        requires room { length self.old + 4 ≤ FIX_TEXT_LIMIT }
        ensures { self.new ≡ decimals_text (without_last_zeros (three_digits thousandths)) ++ self.old }
    {
        if thousandths == 0 {
            return;
        }
        if thousandths % 10 != 0 {
            self.prepend(b'0' + (thousandths % 10) as u8);
        }
        if thousandths % 100 != 0 {
            self.prepend(b'0' + (thousandths / 10 % 10) as u8);
        }
        self.prepend(b'0' + (thousandths / 100) as u8);
        self.prepend(b'.');
    }
}
