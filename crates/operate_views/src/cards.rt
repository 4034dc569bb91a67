//! The hopper and the stacker in words.
ghost use Rattle.std.specs.Prelude.{length};
ghost use Rattle.std.specs.List.{flat_map};
ghost use Rattle.bytes_text.specs.Written.{Adds};
ghost use Rattle.operate_views.specs.Cards.{card_text, count_text, hopper_text, stacker_text};

use bytes_text::{Piece, Text};
use devices_1401::{Card, Devices};

/// Adds how many cards there are.
#[tactic(auto, unfolding(crate::specs::Cards::count_text))]
fn put_count(text: &mut Text, count: u16)
    ensures { Adds text.old text.new (count_text count) }
{
    if count == 1 {
        return text.put(b"1 card\n");
    }
    text.put_pieces(&[Piece::Number(1, count), Piece::Text(b" cards\n")]);
}

/// Adds a card, without the blanks at its end.
#[tactic(auto, unfolding(crate::specs::Cards::card_text))]
fn put_card(text: &mut Text, card: &Card)
    ensures { Adds text.old text.new (card_text card.now) }
{
    text.put_pieces(&[
        Piece::Text(b"  |"),
        Piece::Characters(card.0.as_slice()),
        Piece::Text(b"\n"),
    ]);
}

/// Adds cards, a line each.
fn put_cards(text: &mut Text, cards: &[Card])
    ensures { Adds text.old text.new (flat_map card_text cards.now) }
{
    for card in cards {
        put_card(text, card);
    }
}

/// Adds how many cards are in the hopper, with those of its first cards that are given.
#[tactic(auto, unfolding(crate::specs::Cards::hopper_text, crate::specs::Cards::pile_text, crate::specs::Cards::more_text))]
pub fn put_hopper(text: &mut Text, devices: &Devices, first: &[Card])
    ensures { Adds text.old text.new (hopper_text (length devices.now.hopper) first.now) }
{
    text.put(b"hopper: ");
    let count = devices.hopper();
    if count == 0 {
        return text.put(b"empty\n");
    }
    put_count(text, count);
    put_cards(text, first);
    let more = usize::from(count).saturating_sub(first.len());
    if more > 0 {
        text.put_pieces(&[
            Piece::Text(b"  and "),
            Piece::Count(more as u64),
            Piece::Text(b" more\n"),
        ]);
    }
}

/// Adds how many cards are in the stacker, with the last one punched.
#[tactic(auto, unfolding(crate::specs::Cards::stacker_text, crate::specs::Cards::last_text))]
pub fn put_stacker(text: &mut Text, devices: &Devices)
    ensures { Adds text.old text.new (stacker_text devices.now) }
{
    text.put(b"stacker: ");
    let count = devices.stacker();
    if count == 0 {
        return text.put(b"empty\n");
    }
    put_count(text, count);
    if let Some(card) = devices.last_punched() {
        put_card(text, &card);
    }
}
