//! A text of a line, held in place.
ghost use Rattle.std.specs.Prelude.{◌≡◌, ◌≤◌, length};
ghost use Rattle.console_text.specs.ConsoleLine.{most_line_bytes};
ghost use Rattle.operate_orders.specs.Text.{kept, capitals};

use console_text::LINE_LIMIT;
use std::marker::Model;

/// A text of a line: a word, a label, the name of a file. It has at most 200 bytes, as a line has. Contracts see the
/// list of them.
#[derive(Clone, Copy, Debug)]
pub struct Text {
    bytes: [u8; LINE_LIMIT],
    len: u8,
}

impl Model for Text {
    ghost use Rattle.std.specs.Prelude.{ℕ, List};

    ghost Value = { List ℕ };

    ghost use Rattle.operate_orders.specs.Text.{held_bytes, IsHeld, holding, holding_again};

    ghost view = { held_bytes };

    ghost invariant = { IsHeld };

    ghost inverse = { holding };

    ghost inverse_ok = { holding_again };
}

/// The bytes of a text that are held: all of them, where they are of a line.
#[tactic(auto, unfolding(crate::specs::Text::kept))]
fn front(text: &[u8]) -> &[u8]
    ensures value { result.now ≡ kept text.now }
    ensures most { length result.now ≤ most_line_bytes }
{
    if text.len() > LINE_LIMIT {
        let (front, _) = text.split_at(LINE_LIMIT);
        front
    } else {
        text
    }
}

impl Text {
    /// A text as it is typed.
    pub fn as_typed(text: &[u8]) -> Text
        ensures { result ≡ kept text.now }
    {
        let text = front(text);
        let mut bytes = [0; LINE_LIMIT];
        bytes[..text.len()].copy_from_slice(text);
        Text {
            bytes,
            len: text.len() as u8,
        }
    }

    /// A text with capitals for its small letters.
    #[tactic(auto, unfolding(crate::specs::Text::capitals))]
    pub fn in_capitals(text: &[u8]) -> Text
        ensures { result ≡ capitals text.now }
    {
        let mut held = Text::as_typed(text);
        held.bytes.make_ascii_uppercase();
        held
    }

    /// Its bytes.
    pub fn as_slice(&self) -> &[u8]
        ensures value { result.now ≡ self.now }
        ensures most { length self.now ≤ most_line_bytes }
    {
        &self.bytes[..usize::from(self.len)]
    }
}
