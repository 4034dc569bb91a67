//! The collating order of the characters.
ghost use Rattle.std.specs.Prelude.{ℕ, ◌≡◌, ◌<◌, length};
ghost use Rattle.bcd_1401.specs.Collation.{order_of, orders};

use crate::character::Char;

/// The place of each character in the collating order by its code, sixteen of each zone.
static ORDERS: [u8; 64] = [
    0, 55, 56, 57, 58, 59, 60, 61, 62, 63, 54, 20, 21, 22, 23, 24, 19, 13, 46, 47, 48, 49, 50, 51,
    52, 53, 45, 14, 15, 16, 17, 18, 12, 36, 37, 38, 39, 40, 41, 42, 43, 44, 35, 7, 8, 9, 10, 11, 6,
    26, 27, 28, 29, 30, 31, 32, 33, 34, 25, 1, 2, 3, 4, 5,
];

/// The table of places.
#[tactic(auto, unfolding(crate::specs::Collation::orders, crate::specs::Collation::collation, crate::specs::Graphic::graphics))]
fn order_table() -> &'static [u8]
    ensures table { result.now ≡ orders }
    ensures len { length orders ≡ 64 }
{
    &ORDERS
}

impl Char {
    /// The place in the collating order, lowest first: 0 for the blank, 63 for a 9.
    pub fn order(self) -> u8
        ensures place { result ≡ order_of self }
        ensures range { result < 64 }

        // No other character has this place.
        ensures own { (char : ℕ) → char < 64 → order_of char ≡ result → char ≡ self }
    {
        order_table()[usize::from(self.code())]
    }
}
