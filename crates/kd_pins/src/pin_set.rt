//! The pins of all six wheels of a Converter M-209, as one value.
ghost use Rattle.std.specs.Prelude.{◌≡◌, ◌↔◌, IsTrue};

/// Which pins of the Converter's six wheels are effective.
///
/// Each wheel has an entry for each of its letters, in the wheel's own order, from A on.
#[derive(Clone, Copy, PartialEq, Eq)]
pub struct PinSet {
    /// The pins of wheel 1: A to Z.
    pub w1: [bool; 26],
    /// The pins of wheel 2: A to Z without W.
    pub w2: [bool; 25],
    /// The pins of wheel 3: A to X without W.
    pub w3: [bool; 23],
    /// The pins of wheel 4: A to U.
    pub w4: [bool; 21],
    /// The pins of wheel 5: A to S.
    pub w5: [bool; 19],
    /// The pins of wheel 6: A to Q.
    pub w6: [bool; 17],
}

impl PinSet {
    /// Whether the two sets have the same effective pins.
    pub fn has_same_pins(&self, other: &PinSet) -> bool
        ensures { IsTrue result ↔ (self.now ≡ other.now) }
    {
        *self == *other
    }
}
