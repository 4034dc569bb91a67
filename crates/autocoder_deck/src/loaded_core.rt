//! The image of what a machine's core storage holds.
ghost use Rattle.std.specs.Prelude.{◌≡◌, ◌<◌, ◌≤◌, ◌+◌, ◌∷◌, [], ◌++◌, length, take, IfOk, IfErr, OnOk};
ghost use Rattle.core_1401.specs.Address.{addresses};
ghost use Rattle.autocoder_deck.specs.Entry.{IsWhyUnloaded, loaded_deck};
ghost use Rattle.autocoder_deck.specs.LoadedCore.{IsCoreImage, IsLoadedDeck, following, one_more, segments_from};
ghost use Rattle.job_runner.specs.Unattended.{with_deck};

use crate::contents::is_blank;
use crate::entry::{CarriedOut, LoadFault, load_deck};
use bcd_1401::Cell;
use core_1401::{Cells, Core};
use cpu_1401::Machine;
use job_runner::{CardList, Deck};
use machine_image::{Image, Segment, Segments};
use machine_tapes::TapedMachine;
use std::alloc::{AllocError, Global};

/// How many cells a segment has after its first.
const MORE_CELLS: u8 = 39;

/// One cell more, if it isn't a blank with nothing after it.
fn one_more(is_blank: bool, more: usize) -> usize
    requires { more < addresses }
    ensures { result ≡ one_more is_blank more }
{
    if is_blank && more == 0 { 0 } else { more + 1 }
}

/// How many of these cells follow a segment's first cell, which has room for this many.
fn following(room: u8, cells: &[Cell]) -> usize
    requires { room < 40 }
    ensures value { result ≡ following room cells.now }
    ensures few { result ≤ length cells.now }
    ensures most { result ≤ room }
{
    let [cell, beyond @ ..] = cells else {
        return 0;
    };
    if room == 0 || cell.mark {
        return 0;
    }
    one_more(is_blank(*cell), following(room - 1, beyond))
}

/// Adds the segment of a cell and of those after it.
fn put_segment(segments: &mut Vec<Segment>, address: u16, cells: &[Cell]) -> Result<(), AllocError>
    requires some { 1 ≤ length cells.now }
    requires few { length cells.now ≤ 40 }
    ensures { OnOk result (segments.new.items
        ≡ segments.old.items ++ record { address = address; cells = cells.now } ∷ []) }
{
    let Some(cells) = Cells::from_slice(cells) else {
        unreachable!()
    };
    segments.push(Segment { address, cells })?;
    Ok(())
}

/// Adds the segment that begins with the first of these cells, if it isn't in one already, and isn't blank. Says how
/// many of the cells after it are in a segment then.
fn put_next(
    segments: &mut Vec<Segment>,
    covered: usize,
    from: u16,
    first: &Cell,
    cells: &[Cell],
    beyond: &[Cell],
) -> Result<usize, AllocError>
    requires { cells.now ≡ first.now ∷ beyond.now }
    ensures { IfOk result (λ left. segments.new.items ++ segments_from left (from + 1) beyond.now
        ≡ segments.old.items ++ segments_from covered from (first.now ∷ beyond.now)) }
{
    let is_blank = is_blank(*first);
    if covered > 0 {
        return Ok(covered - 1);
    }
    if is_blank {
        return Ok(0);
    }
    let count = following(MORE_CELLS, beyond);
    put_segment(segments, from, &cells[..count + 1])?;
    Ok(count)
}

/// The segments of the cells of core storage, by address.
fn segments_of(alloc: Global, cells: &[Cell]) -> Result<Vec<Segment>, AllocError>
    requires { length cells.now ≤ addresses }
    ensures { IfOk result (λ segments. segments.items ≡ segments_from 0 0 cells.now) }
{
    let mut segments = Vec::new(alloc);
    let mut covered = 0;
    let mut at = 0;
    let mut rest = cells;
    while let [first, beyond @ ..] = rest {
        covered = put_next(&mut segments, covered, at, first, rest, beyond)?;
        at += 1;
        rest = beyond;
    }
    Ok(segments)
}

/// The cells of core storage, by address.
fn cells_of(alloc: Global, core: &Core) -> Result<Vec<Cell>, AllocError>
    ensures { IfOk result (λ cells. cells.items ≡ core.now) }
{
    let mut cells = Vec::new(alloc);
    for at in 0..core.size() {
        cells.push(core.get(at))?;
    }
    Ok(cells)
}

/// The image of what a machine's core storage holds, which begins at the next instruction. A segment begins with a cell
/// that isn't a blank without a word mark, and ends before the next word mark, before blanks, and after 40 cells.
///
/// # Errors
///
/// If the memory for it is refused.
#[tactic(auto, using(crate::proofs::LoadedCoreLemmas::is_storage, crate::proofs::LoadedCoreLemmas::are_inside))]
pub fn core_image(alloc: Global, machine: &Machine) -> Result<Image, AllocError>
    requires { machine.now.i < length machine.now.storage }
    ensures { IfOk result (IsCoreImage machine.now) }
{
    let core = machine.core();
    let size = core.size();
    let cells = cells_of(alloc, core)?;
    let segments = segments_of(alloc, cells.as_slice())?;
    Ok(Image {
        size,
        segments: Segments::from_vec(segments),
        start: machine.regs().i,
    })
}

/// What is in core storage when the program of a deck begins.
#[derive(Drop)]
pub struct LoadedDeck {
    /// The image of core storage, with the program's entry.
    pub image: Image,
    /// At which of the places 000 to 080 an instruction was carried out since the last card was read.
    pub carried: CarriedOut,
}

/// Has a machine without reels take these cards by the load key up to the entry of their program, and gives the image of core storage
/// there.
///
/// # Errors
///
/// `Stopped` if the machine stops before, has no card, or is still loading after this many instructions; or `Memory`.
pub fn loaded_image(
    alloc: Global,
    machine: Machine,
    cards: &CardList,
    limit: u32,
) -> Result<LoadedDeck, LoadFault>
    ensures ok { IfOk result (IsLoadedDeck (loaded_deck limit (with_deck cards.now machine))) }
    ensures err { IfErr result (IsWhyUnloaded (loaded_deck limit (with_deck cards.now machine))) }
{
    let Ok(mut taped) = TapedMachine::without_reels(alloc, machine) else {
        return Err(LoadFault::Memory);
    };
    let mut deck = Deck::new(cards);
    let carried = load_deck(alloc, &mut taped, &mut deck, limit)?;
    match core_image(alloc, &taped.machine) {
        Ok(image) => Ok(LoadedDeck { image, carried }),
        Err(_) => Err(LoadFault::Memory),
    }
}
