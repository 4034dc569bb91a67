//! The listing of a core image.
ghost use Rattle.std.specs.Prelude.{◌≡◌, ◌+◌, ◌*◌, ◌∷◌, [], true, ◌<◌, ◌≤◌, ◌++◌, ℕ, List, length, map, vec_capacity};
ghost use Rattle.std.specs.Prelude.{IfOk, OnOk, OnErr};
ghost use Rattle.std.specs.List.{flat_map};
ghost use Rattle.bcd_1401.specs.declared.cell.Cell.{Cell as ACell};
ghost use Rattle.core_1401.specs.Cells.{most_cells};
ghost use Rattle.machine_tables.specs.Operation.{operation_of};
ghost use Rattle.machine_notation.specs.InstructionText.{graphic_of};
ghost use Rattle.autocoder_deck.specs.ImageListing.{is_legal, is_instruction, as_instruction, as_data};
ghost use Rattle.autocoder_deck.specs.ImageListing.{what_stands};
ghost use Rattle.autocoder_deck.specs.ImageListing.{stretch_line, start_text, entry_text, end_text, start_line};
ghost use Rattle.autocoder_deck.specs.ImageListing.{is_carried, marked_line, marked_text, sign_of};
ghost use Rattle.autocoder_deck.specs.ImageListing.{most_in_end, most_in_segment, most_in_stretch};
ghost use Rattle.autocoder_deck.specs.ImageListing.{most_that_stands};
ghost use Rattle.autocoder_deck.specs.Stretches.{built, placed_cells, stretches_of, IsReady, KeepsCapacity};
ghost use Rattle.autocoder_placing.specs.Cells.{numbered};

use crate::instruction::put_instruction;
use crate::stretches::put_all;
use crate::written_again::is_written_again;
use autocoder_placing::Builder;
use bcd_1401::{Cell, Char};
use core_1401::Cells;
use machine_image::{Image, Segment};
use machine_notation::{put_cells, put_number};
use machine_tables::Operation;
use std::alloc::{AllocError, Global};

/// Eight blank columns.
static BLANKS: [u8; 8] = *b"        ";

/// Whether a character is an operation of this machine that may have instructions of this length.
fn is_legal(operation: Char, len: u16) -> bool
    ensures { result ≡ is_legal (operation_of operation) len }
{
    match Operation::from_char(operation) {
        Some(operation) => operation.has_length(len),
        None => false,
    }
}

/// Whether cells are an instruction of this machine, with a word mark over its operation.
fn is_instruction(cells: &[Cell]) -> bool
    ensures value { result ≡ is_instruction cells.now }
    ensures few { result ≡ true → length cells.now ≤ 8 }
{
    let [operation, beyond @ ..] = cells else {
        return false;
    };
    if beyond.len() > 7 {
        return false;
    }
    operation.mark && is_legal(operation.char, beyond.len() as u16 + 1)
}

/// Adds the characters of cells by their graphics.
fn put_graphics(text: &mut Vec<u8>, cells: &[Cell]) -> Result<(), AllocError>
    ensures text { OnOk result (text.new.items ≡ text.old.items ++ map graphic_of cells.now) }
    ensures full { OnErr result (vec_capacity text.old < length text.old.items + length cells.now) }
    ensures capacity { vec_capacity text.old ≤ vec_capacity text.new }
{
    for cell in cells {
        text.push(cell.char.graphic())?;
    }
    Ok(())
}

/// Adds an instruction by its characters in eight columns, and as Autocoder writes it.
fn put_as_instruction(text: &mut Vec<u8>, cells: &[Cell]) -> Result<(), AllocError>
    requires { length cells.now ≤ 8 }
    ensures text { OnOk result (text.new.items ≡ text.old.items ++ as_instruction cells.now) }
    ensures few { OnOk result (length text.new.items ≤ length text.old.items + most_that_stands) }
    ensures full { OnErr result (vec_capacity text.old < length text.old.items + most_that_stands) }
    ensures capacity { vec_capacity text.old ≤ vec_capacity text.new }
{
    put_graphics(text, cells)?;
    text.extend_from_slice(&BLANKS[cells.len()..])?;
    text.push(b' ')?;
    put_instruction(text, cells)
}

/// Adds data by their characters, after nine blanks.
fn put_as_data(text: &mut Vec<u8>, cells: &Cells) -> Result<(), AllocError>
    requires { length cells.now ≤ most_cells }
    ensures text { OnOk result (text.new.items ≡ text.old.items ++ as_data cells.now) }
    ensures few { OnOk result (length text.new.items ≤ length text.old.items + most_that_stands) }
    ensures full { OnErr result (vec_capacity text.old < length text.old.items + most_that_stands) }
    ensures capacity { vec_capacity text.old ≤ vec_capacity text.new }
{
    text.extend_from_slice(b"         ".as_slice())?;
    put_cells(text, cells)
}

/// Adds cells, as an instruction if they are such that the assembler makes them again of its text, else as data.
fn put_what_stands(text: &mut Vec<u8>, cells: &Cells) -> Result<(), AllocError>
    ensures text { OnOk result (text.new.items ≡ text.old.items ++ what_stands cells.now) }
    ensures few { OnOk result (length text.new.items ≤ length text.old.items + most_that_stands) }
    ensures full { OnErr result (vec_capacity text.old < length text.old.items + most_that_stands) }
    ensures capacity { vec_capacity text.old ≤ vec_capacity text.new }
{
    if is_instruction(cells.as_slice()) && is_written_again(cells.as_slice()) {
        put_as_instruction(text, cells.as_slice())
    } else {
        put_as_data(text, cells)
    }
}

/// The sign of an address: an asterisk if an instruction was carried out there.
fn sign_of(carried: bool) -> u8
    ensures { result ∷ [] ≡ sign_of carried }
{
    if carried { b'*' } else { b' ' }
}

/// Adds the line of a stretch.
#[tactic(auto, unfolding(crate::specs::ImageListing::stretch_line))]
fn put_line(text: &mut Vec<u8>, carried: bool, stretch: &Segment) -> Result<(), AllocError>
    ensures text { OnOk result (text.new.items ≡ text.old.items ++ stretch_line carried stretch.now) }
    ensures few { OnOk result (length text.new.items ≤ length text.old.items + most_in_stretch) }
    ensures full { OnErr result (vec_capacity text.old < length text.old.items + most_in_stretch) }
    ensures capacity { vec_capacity text.old ≤ vec_capacity text.new }
{
    put_number(text, 5, stretch.address)?;
    text.push(sign_of(carried))?;
    put_what_stands(text, &stretch.cells)?;
    Ok(text.push(b'\n')?)
}

/// Whether an instruction was carried out at an address.
fn is_carried(carried: &[bool], at: u16) -> bool
    ensures { result ≡ is_carried carried.now at }
{
    match carried.get(usize::from(at)) {
        Some(is) => *is,
        None => false,
    }
}

/// Adds the lines of stretches.
pub(crate) fn put_lines(
    text: &mut Vec<u8>,
    carried: &[bool],
    stretches: &[Segment],
) -> Result<(), AllocError>
    ensures text { OnOk result (text.new.items
        ≡ text.old.items ++ flat_map (marked_line carried.now) stretches.now) }
    ensures few { OnOk result (length text.new.items
        ≤ length text.old.items + most_in_stretch * length stretches.now) }
    ensures full { OnErr result (vec_capacity text.old
        < length text.old.items + most_in_stretch * length stretches.now) }
    ensures capacity { vec_capacity text.old ≤ vec_capacity text.new }
{
    for stretch in stretches {
        put_line(text, is_carried(carried, stretch.address), stretch)?;
    }
    Ok(())
}

/// Adds the lines of the stretches that are closed, and forgets them.
fn put_closed(text: &mut Vec<u8>, carried: &[bool], builder: &mut Builder) -> Result<(), AllocError>
    ensures text { OnOk result ((rest : List (ℕ × ACell)) → text.new.items
        ++ flat_map (marked_line carried.now) (built builder.new rest)
        ≡ text.old.items ++ flat_map (marked_line carried.now) (built builder.old rest)) }
    ensures full { OnErr result (vec_capacity text.old
        < length text.old.items + most_in_stretch * length builder.old.done.items) }
    ensures capacity { vec_capacity text.old ≤ vec_capacity text.new }
    ensures none { OnOk result (builder.new.done.items ≡ []) }
    ensures room { KeepsCapacity builder.old builder.new }
{
    put_lines(text, carried, &builder.done)?;
    builder.done.clear();
    Ok(())
}

/// Adds the lines of the stretches of a segment, but for the last stretch, which may go on.
pub(crate) fn put_segment(
    text: &mut Vec<u8>,
    carried: &[bool],
    builder: &mut Builder,
    segment: &Segment,
) -> Result<(), AllocError>
    ensures text { OnOk result ((rest : List (ℕ × ACell)) → text.new.items
        ++ flat_map (marked_line carried.now) (built builder.new rest)
        ≡ text.old.items ++ flat_map (marked_line carried.now)
        (built builder.old (numbered segment.now.address segment.now.cells ++ rest))) }

    // Memory is refused only where there is no room for a line for each cell.
    ensures full { IsReady builder.old
        → OnErr result (vec_capacity text.old < length text.old.items + most_in_segment) }
    ensures ready { IsReady builder.old → OnOk result (IsReady builder.new) }
    ensures capacity { vec_capacity text.old ≤ vec_capacity text.new }
{
    put_all(builder, segment.address, segment.cells.as_slice())?;
    put_closed(text, carried, builder)
}

/// Adds the lines of the stretches of segments, but for the last stretch, which may go on.
fn put_segments(
    text: &mut Vec<u8>,
    carried: &[bool],
    builder: &mut Builder,
    segments: &[Segment],
) -> Result<(), AllocError>
    ensures { OnOk result (text.new.items ++ flat_map (marked_line carried.now) (built builder.new [])
        ≡ text.old.items ++ flat_map (marked_line carried.now) (built builder.old (placed_cells segments.now))) }
{
    for segment in segments {
        put_segment(text, carried, builder, segment)?;
    }
    Ok(())
}

/// Adds the lines of all stretches of segments: from each word mark up to the next one, or up to a gap, at most 40
/// cells.
fn put_stretches(
    alloc: Global,
    text: &mut Vec<u8>,
    carried: &[bool],
    segments: &[Segment],
) -> Result<(), AllocError>
    ensures { OnOk result (text.new.items
        ≡ text.old.items ++ flat_map (marked_line carried.now) (stretches_of segments.now)) }
{
    let mut builder = Builder::new(alloc);
    put_segments(text, carried, &mut builder, segments)?;
    builder.close()?;
    put_lines(text, carried, &builder.done)
}

/// Adds the entry in decimal, which ends its line.
#[tactic(auto, unfolding(crate::specs::ImageListing::start_text))]
fn put_start_number(text: &mut Vec<u8>, start: u16) -> Result<(), AllocError>
    ensures text { OnOk result (text.new.items ≡ text.old.items ++ start_text start) }
    ensures full { OnErr result (vec_capacity text.old < length text.old.items + 6) }
{
    put_number(text, 3, start)?;
    Ok(text.push(b'\n')?)
}

/// Adds the operation and the entry.
#[tactic(auto, unfolding(crate::specs::ImageListing::entry_text))]
fn put_entry(text: &mut Vec<u8>, start: u16) -> Result<(), AllocError>
    ensures text { OnOk result (text.new.items ≡ text.old.items ++ entry_text start) }
    ensures full { OnErr result (vec_capacity text.old < length text.old.items + 12) }
{
    text.extend_from_slice(b" END  ".as_slice())?;
    put_start_number(text, start)
}

/// Adds what follows the address of the last line.
#[tactic(auto, unfolding(crate::specs::ImageListing::end_text))]
fn put_end(text: &mut Vec<u8>, start: u16) -> Result<(), AllocError>
    ensures text { OnOk result (text.new.items ≡ text.old.items ++ end_text start) }
    ensures full { OnErr result (vec_capacity text.old < length text.old.items + 21) }
{
    text.extend_from_slice(b"         ".as_slice())?;
    put_entry(text, start)
}

/// Adds the last line: where the program begins.
pub(crate) fn put_start(text: &mut Vec<u8>, start: u16) -> Result<(), AllocError>
    ensures text { OnOk result (text.new.items ≡ text.old.items ++ start_line start) }
    ensures full { OnErr result (vec_capacity text.old < length text.old.items + most_in_end) }
{
    put_number(text, 5, start)?;
    put_end(text, start)
}

/// The listing of an image: a line for each stretch of cells from a word mark up to the next one, in the order in which
/// the image has them. A stretch that is an instruction of this machine, of a length that it may have, and that the
/// assembler makes again of its text, is shown with its address, its characters and its text; any other with its address
/// and its cells, as the console shows them. An asterisk follows each address at which an instruction was carried out:
/// those that `carried` says so of, from 000 on. The last line is the entry's.
///
/// # Errors
///
/// If the memory for the text is refused.
#[tactic(auto, unfolding(crate::specs::ImageListing::marked_text))]
pub fn list_marked(alloc: Global, image: &Image, carried: &[bool]) -> Result<Vec<u8>, AllocError>
    ensures { IfOk result (λ text. text.items ≡ marked_text carried.now image.now) }
{
    let mut text = Vec::new(alloc);
    put_stretches(alloc, &mut text, carried, image.segments.as_slice())?;
    put_start(&mut text, image.start)?;
    Ok(text)
}
