//! Texts as data.
ghost use Rattle.std.specs.Prelude.{◌≡◌, ◌++◌, replicate, OnOk};
ghost use Rattle.std.specs.List.{flat_map};
ghost use Rattle.bytes_text.specs.Piece.{padded, piece_text};

use bcd_1401::{Cell, Char};
use machine_notation::{put_cell, put_characters, put_digits};
use std::alloc::AllocError;

/// A piece of a text.
#[derive(Clone, Copy)]
pub enum Piece<'a> {
    /// These bytes.
    Text(&'a [u8]),
    /// These bytes, with blanks after them up to a width.
    Padded(u8, &'a [u8]),
    /// One byte.
    Byte(u8),
    /// A number, with leading zeros up to the width.
    Number(u8, u16),
    /// A small number.
    Small(u8),
    /// A number of any size.
    Count(u64),
    /// A cell by its graphic, with a tilde before it if it has a word mark.
    Cell(Cell),
    /// Characters by their graphics, without the blanks at their end.
    Characters(&'a [Char]),
}

/// Adds blanks.
pub(crate) fn put_blanks(text: &mut Vec<u8>, count: usize) -> Result<(), AllocError>
    ensures { OnOk result (text.new.items ≡ text.old.items ++ replicate count 32) }
{
    for i in 0..count {
        text.push(b' ')?;
    }
    Ok(())
}

/// Adds bytes, with blanks after them up to a width.
fn put_padded(text: &mut Vec<u8>, width: u8, bytes: &[u8]) -> Result<(), AllocError>
    ensures { OnOk result (text.new.items ≡ text.old.items ++ padded width bytes.now) }
{
    text.extend_from_slice(bytes)?;
    put_blanks(text, usize::from(width).saturating_sub(bytes.len()))
}

/// Adds a piece.
fn put_piece(text: &mut Vec<u8>, piece: &Piece<'_>) -> Result<(), AllocError>
    ensures { OnOk result (text.new.items ≡ text.old.items ++ piece_text piece.now) }
{
    match piece {
        Piece::Text(bytes) => text.extend_from_slice(bytes),
        Piece::Padded(width, bytes) => put_padded(text, *width, bytes),
        Piece::Byte(byte) => Ok(text.push(*byte)?),
        Piece::Number(width, number) => put_digits(text, *width, u64::from(*number)),
        Piece::Small(number) => put_digits(text, 1, u64::from(*number)),
        Piece::Count(number) => put_digits(text, 1, *number),
        Piece::Cell(cell) => put_cell(text, *cell),
        Piece::Characters(chars) => put_characters(text, chars),
    }
}

/// Adds pieces, one after the other.
pub(crate) fn put_pieces(text: &mut Vec<u8>, pieces: &[Piece<'_>]) -> Result<(), AllocError>
    ensures { OnOk result (text.new.items ≡ text.old.items ++ flat_map piece_text pieces.now) }
{
    for piece in pieces {
        put_piece(text, piece)?;
    }
    Ok(())
}
