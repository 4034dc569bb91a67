//! The text of a picture, which the page's script reads.
ghost use Rattle.std.specs.Prelude.{◌<◌, option_copied};
ghost use Rattle.bytes_text.specs.Written.{Adds};
ghost use Rattle.serving_page.specs.PictureLines.{answer_line, card_line, lines_text, next_line, picture_text};
ghost use Rattle.serving_page.specs.PictureLines.{row_text, rows, rows_text, state_text};

use bcd_1401::Cell;
use bytes_text::{Piece, Text};
use console_text::reply_text;
use core_1401::{Cells, MOST_CELLS};
use cpu_1401::{Answer, InstructionCells};
use devices_1401::{Card, PrintLine};
use machine_notation::{put_cells, put_instruction};
use room_1401::{Picture, WINDOW_CELLS};
use std::alloc::Global;

/// How many lines of 40 cells the window of a picture has.
const ROWS: usize = WINDOW_CELLS / MOST_CELLS;

/// Adds an answer, as the console replies it.
#[tactic(auto, unfolding(crate::specs::PictureLines::answer_line))]
fn put_answer(alloc: Global, text: &mut Text, answer: &Answer)
    ensures { Adds text.old text.new (answer_line answer.now) }
{
    match reply_text(alloc, answer) {
        Ok(reply) => {
            text.put(reply.as_slice());
            text.put_byte(b'\n');
        }
        Err(_) => text.fail(),
    }
}

/// Adds the line of the instruction at the I register.
#[tactic(auto, unfolding(crate::specs::PictureLines::next_line))]
fn put_next(text: &mut Text, next: Option<&InstructionCells>)
    ensures { Adds text.old text.new (next_line (option_copied next.entry)) }
{
    match next {
        Some(cells) => {
            text.put(b"NEXT ");
            let mut bytes = text.take();
            let added = put_instruction(&mut bytes, cells.as_slice());
            text.put_back(bytes, added);
            text.put_byte(b'\n');
        }
        None => text.put(b"NEXT\n"),
    }
}

/// Adds the line of a card, or of none.
#[tactic(auto, unfolding(crate::specs::PictureLines::card_line))]
fn put_card(text: &mut Text, word: &[u8], card: Option<Card>)
    ensures { Adds text.old text.new (card_line word.now card) }
{
    text.put(word);
    match card {
        Some(card) => text.put_pieces(&[
            Piece::Byte(b' '),
            Piece::Characters(&card.0),
            Piece::Byte(b'\n'),
        ]),
        None => text.put_byte(b'\n'),
    }
}

/// Adds the line of 40 cells with this number, from 0.
#[tactic(auto, unfolding(crate::specs::PictureLines::row_text))]
fn put_row(text: &mut Text, cells: &[Cell; WINDOW_CELLS], row: usize)
    requires { row < rows }
    ensures { Adds text.old text.new (row_text cells.now row) }
{
    let first = MOST_CELLS * row;
    let cells = cells.as_slice();
    let Some(cells) = Cells::from_slice(&cells[first..first + MOST_CELLS]) else {
        unreachable!();
    };
    let mut bytes = text.take();
    let added = put_cells(&mut bytes, &cells);
    text.put_back(bytes, added);
    text.put_byte(b'\n');
}

/// Adds the lines of a window's cells.
#[tactic(auto, unfolding(crate::specs::PictureLines::rows_text))]
fn put_rows(text: &mut Text, cells: &[Cell; WINDOW_CELLS])
    ensures { Adds text.old text.new (rows_text cells.now) }
{
    for row in 0..ROWS {
        put_row(text, cells, row);
    }
}

/// Adds printed lines, each as the console replies it.
#[tactic(auto, unfolding(crate::specs::PictureLines::lines_text))]
fn put_lines(alloc: Global, text: &mut Text, lines: &[PrintLine])
    ensures { Adds text.old text.new (lines_text lines.now) }
{
    for line in lines {
        put_answer(alloc, text, &Answer::Line(*line));
    }
}

/// Adds what a picture has of the seat, the registers and the cards.
#[tactic(auto, unfolding(crate::specs::PictureLines::seat_lines, crate::specs::PictureLines::state_text))]
fn put_state(alloc: Global, text: &mut Text, number: u8, seats: u8, made: u64, picture: &Picture)
    ensures { Adds text.old text.new (state_text number seats made picture.now) }
{
    text.put_pieces(&[
        Piece::Text(b"SEAT "),
        Piece::Small(number),
        Piece::Text(b" OF "),
        Piece::Small(seats),
        Piece::Text(b" MADE "),
        Piece::Count(made),
        Piece::Text(b"\nAFTER "),
        Piece::Count(picture.after),
        Piece::Byte(b'\n'),
    ]);
    put_answer(alloc, text, &Answer::Regs(picture.regs));
    put_next(text, picture.next.as_ref());
    put_card(text, b"READ", Some(picture.read));
    put_card(text, b"HOPPER", picture.hopper);
    put_card(text, b"PUNCHED", picture.punched);
}

/// Adds the text of a picture, for the seat of this number of this many seats, which made this many commands.
#[tactic(auto, unfolding(crate::specs::PictureLines::core_line, crate::specs::PictureLines::paper_line, crate::specs::PictureLines::picture_text))]
pub fn put_picture(
    alloc: Global,
    text: &mut Text,
    number: u8,
    seats: u8,
    made: u64,
    picture: &Picture,
)
    ensures { Adds text.old text.new (picture_text number seats made picture.now) }
{
    put_state(alloc, text, number, seats, made, picture);
    text.put_pieces(&[
        Piece::Text(b"CORE "),
        Piece::Number(5, picture.core),
        Piece::Text(b" OF "),
        Piece::Number(5, picture.size),
        Piece::Byte(b'\n'),
    ]);
    put_rows(text, &picture.cells);
    text.put_pieces(&[
        Piece::Text(b"PAPER "),
        Piece::Number(1, picture.paper),
        Piece::Byte(b'\n'),
    ]);
    put_lines(alloc, text, picture.lines.as_slice());
}
