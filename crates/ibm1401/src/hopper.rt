//! The cards that are in the hopper before operators come.

use crate::fault::Fault;
use bcd_1401::Graphics;
use devices_1401::{Card, MOST_HELD};
use program_run::{list_cards, read_cards};
use std::rt::Files;

/// The cards of a deck's file, which has the graphics of the chain that was asked for; without one there are none.
///
/// # Errors
///
/// `Run` if the file is no deck, as `run` tells it; `Hopper` if the hopper doesn't hold that many cards; or `Memory`.
pub fn cards_of(
    rt: &(impl Files + Eprint + AllocGlobal),
    name: Option<String>,
    asked: Option<Graphics>,
) -> Result<Vec<Card>, Fault> {
    match name {
        Some(name) => hopper_of(rt, name, asked),
        None => Ok(Vec::new(rt.alloc())),
    }
}

/// The cards of the file of this name.
fn hopper_of(
    rt: &(impl Files + Eprint + AllocGlobal),
    name: String,
    asked: Option<Graphics>,
) -> Result<Vec<Card>, Fault> {
    let Ok(label) = name.clone() else {
        return Err(Fault::Memory);
    };
    let cards = read_cards(rt, name, asked).map_err(Fault::Run)?;
    if cards.len() > MOST_HELD {
        return Err(Fault::Hopper(label, cards.len() as u64));
    }
    list_cards(rt.alloc(), &cards).map_err(|_| Fault::Memory)
}
