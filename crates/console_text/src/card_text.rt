//! Cards as texts: their characters by graphics.
ghost use Rattle.std.specs.Prelude.{◌≡◌};
ghost use Rattle.machine_notation.specs.Characters.{chars_of};
ghost use Rattle.console_text.specs.CardText.{card_of};

use crate::line::LineFault;
use bcd_1401::Char;
use devices_1401::{CARD_COLUMNS, Card};

/// The card with a text in its first columns.
///
/// # Errors
///
/// `Graphic` if one of the first 80 bytes is no graphic, else `Length` if there are more.
#[tactic(auto, unfolding(crate::specs::CardText::card_of))]
pub(crate) fn card(text: &[u8]) -> Result<Card, LineFault>
    ensures { result ≡ card_of (chars_of text.now) }
{
    let mut columns = [Char::BLANK; CARD_COLUMNS];
    for (i, graphic) in text.iter().enumerate() {
        if i == CARD_COLUMNS {
            return Err(LineFault::Length);
        }
        let Some(char) = Char::from_graphic(*graphic) else {
            return Err(LineFault::Graphic);
        };
        columns[i] = char;
    }
    Ok(Card(columns))
}
