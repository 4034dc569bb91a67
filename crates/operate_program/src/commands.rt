//! Commands in a list, and the characters of texts.
ghost use Rattle.std.specs.Prelude.{◌≡◌, ◌+◌, ◌*◌, ◌<◌, ◌≤◌, ◌∷◌, [], ◌++◌, length, map, take, drop, option_map, IfOk, OnOk};
ghost use Rattle.core_1401.specs.Address.{addresses};
ghost use Rattle.core_1401.specs.Cells.{most_cells};
ghost use Rattle.machine_image.specs.Loading.{deposit_of};
ghost use Rattle.console_text.specs.CardText.{card_of};
ghost use Rattle.operate_program.specs.Act.{card_in, chars_in, piece, pieces};

use crate::fault::ActFault;
use bcd_1401::{Cell, Char};
use core_1401::{Cells, MOST_CELLS};
use devices_1401::{CARD_COLUMNS, Card};
use machine_commands::Command;
use machine_image::{Image, Segment};
use std::alloc::{AllocError, Global};
use std::slice::from_ref;

/// The card with a text in its first columns.
///
/// # Errors
///
/// `Card` if a byte is no graphic, or there are more than 80.
#[tactic(auto, unfolding(console_text::specs::CardText::card_of))]
pub fn read_card(text: &[u8]) -> Result<Card, ActFault>
    ensures { result ≡ card_in text.now }
{
    let mut columns = [Char::BLANK; CARD_COLUMNS];
    for (i, graphic) in text.iter().enumerate() {
        if i == CARD_COLUMNS {
            return Err(ActFault::Card);
        }
        let Some(char) = Char::from_graphic(*graphic) else {
            return Err(ActFault::Card);
        };
        columns[i] = char;
    }
    Ok(Card(columns))
}

/// The characters of a text; none if a byte is no graphic.
pub(crate) fn chars_in(alloc: Global, text: &[u8]) -> Result<Option<Vec<Char>>, AllocError>
    ensures { IfOk result (λ chars. option_map (λ held. held.items) chars ≡ chars_in text.now) }
{
    let mut chars = Vec::new(alloc);
    for graphic in text {
        match Char::from_graphic(*graphic) {
            Some(char) => chars.push(char)?,
            None => return Ok(None),
        }
    }
    Ok(Some(chars))
}

/// Some cells, 1 to 40.
pub(crate) fn held(cells: &[Cell]) -> Cells
    requires some { 1 ≤ length cells.now }
    requires most { length cells.now ≤ most_cells }
    ensures { result ≡ cells.now }
{
    match Cells::from_slice(cells) {
        Some(held) => held,
        None => unreachable!(),
    }
}

/// Adds a copy of a command.
fn put(commands: &mut Vec<Command>, command: &Command) -> Result<(), AllocError>
    ensures { OnOk result (commands.new.items ≡ commands.old.items ++ command.now ∷ []) }
{
    commands.extend_from_slice(from_ref(command))
}

/// One command.
pub(crate) fn one(alloc: Global, command: &Command) -> Result<Vec<Command>, AllocError>
    ensures { IfOk result (λ commands. commands.items ≡ command.now ∷ []) }
{
    let mut commands = Vec::new(alloc);
    put(&mut commands, command)?;
    Ok(commands)
}

/// The commands that deposit the segments of an image.
pub(crate) fn deposits(alloc: Global, image: &Image) -> Result<Vec<Command>, AllocError>
    ensures { IfOk result (λ commands. commands.items ≡ map deposit_of image.now.segments) }
{
    let mut commands = Vec::new(alloc);
    for segment in image.segments.as_slice() {
        let deposit = Command::Deposit {
            address: segment.address,
            cells: segment.cells,
        };
        put(&mut commands, &deposit)?;
    }
    Ok(commands)
}

/// The command that deposits the piece of this number, counted from 0: 40 cells, but the last has what is left.
#[tactic(auto, using(crate::proofs::ActLemmas::forty))]
fn piece(low: u16, cells: &[Cell], number: usize) -> Command
    requires within { most_cells * number < length cells.now }
    requires places { low + length cells.now ≤ addresses }
    ensures { result ≡ piece low cells.now number }
{
    let (_, beyond) = cells.split_at(MOST_CELLS * number);
    let (piece, _) = beyond.split_at(MOST_CELLS.min(beyond.len()));
    Command::Deposit {
        address: low + (MOST_CELLS * number) as u16,
        cells: held(piece),
    }
}

/// The commands that deposit cells from a place on, 40 by 40.
#[tactic(auto, using(crate::proofs::ActLemmas::piece_more))]
pub(crate) fn pieces(alloc: Global, low: u16, cells: &[Cell]) -> Result<Vec<Command>, AllocError>
    requires { low + length cells.now ≤ addresses }
    ensures { IfOk result (λ commands. commands.items ≡ pieces low cells.now) }
{
    let mut commands = Vec::new(alloc);
    for number in 0..cells.len().div_ceil(MOST_CELLS) {
        put(&mut commands, &piece(low, cells, number))?;
    }
    Ok(commands)
}
