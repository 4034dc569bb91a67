//! A punched card.
ghost use Rattle.std.specs.Prelude.{◌≡◌, IfSome, IfNone};
ghost use Rattle.devices_1401.specs.Card.{columns_of, NoCard};

use bcd_1401::Char;

/// How many columns a card has.
pub const CARD_COLUMNS: usize = 80;

/// A card by the characters of its 80 columns.
#[derive(Clone, Copy, Debug, PartialEq, Eq)]
pub struct Card(pub [Char; CARD_COLUMNS]);

impl Card {
    /// The card with these columns, each a number of twelve bits; `None` if one of them is no character's.
    pub fn from_columns(columns: &[u16; CARD_COLUMNS]) -> Option<Card>
        ensures card { IfSome result (λ card. columns_of card ≡ columns.now) }
        ensures none { IfNone result (NoCard columns.now) }
    {
        let mut chars = [Char::BLANK; CARD_COLUMNS];
        for i in 0..CARD_COLUMNS {
            let char = Char::from_punch(columns[i])?;
            chars[i] = char;
        }
        Some(Card(chars))
    }

    /// The columns, each a number of twelve bits.
    pub fn columns(self) -> [u16; CARD_COLUMNS]
        ensures { result ≡ columns_of self }
    {
        let mut columns = [0; CARD_COLUMNS];
        for i in 0..CARD_COLUMNS {
            columns[i] = self.0[i].punch();
        }
        columns
    }
}
