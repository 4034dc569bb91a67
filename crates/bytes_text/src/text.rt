//! A text that keeps its first failure.
use crate::piece::{Piece, put_blanks, put_pieces};
use bcd_1401::{Cell, Char};
use machine_notation::{put_cell, put_characters, put_digits};
use std::alloc::{AllocError, Global};
use std::marker::Model;
use std::mem;

/// A text that is written piece by piece. After memory was refused nothing more is added, and `into_bytes` says so.
#[derive(Drop)]
pub struct Text {
    bytes: Vec<u8>,
    is_whole: bool,
}

impl Model for Text {
    ghost use Rattle.bytes_text.specs.Written.{Written};

    ghost Value = { Written };

    ghost view = { λ text. record {
      items = text.bytes.items;
      is_whole = text.is_whole;
    } };
}

impl Text {
    ghost use Rattle.std.specs.Prelude.{◌≡◌, ◌==◌, ◌-◌, [], ◌∷◌, length, replicate, IsTrue, IsOk, IfOk, true, false};
    ghost use Rattle.std.specs.List.{flat_map};
    ghost use Rattle.bytes_text.specs.Piece.{piece_text};
    ghost use Rattle.bytes_text.specs.Written.{Adds};
    ghost use Rattle.machine_notation.specs.Cells.{cell_text};
    ghost use Rattle.machine_notation.specs.Characters.{graphics_of, trimmed};
    ghost use Rattle.machine_notation.specs.Digits.{digits_in};

    /// An empty text.
    pub fn new(alloc: Global) -> Text
        ensures { result ≡ record { items = []; is_whole = true } }
    {
        Text {
            bytes: Vec::new(alloc),
            is_whole: true,
        }
    }

    /// A text that begins with these bytes.
    pub fn of(bytes: Vec<u8>) -> Text
        ensures { result ≡ record { items = bytes.items; is_whole = true } }
    {
        Text {
            bytes,
            is_whole: true,
        }
    }

    /// Whether nothing has been written.
    pub fn is_empty(&self) -> bool
        ensures { result ≡ (length self.now.items == 0) }
    {
        self.bytes.is_empty()
    }

    /// How many bytes have been written.
    pub fn len(&self) -> usize
        ensures { result ≡ length self.now.items }
    {
        self.bytes.len()
    }

    /// Whether memory was refused for nothing of it.
    pub fn is_whole(&self) -> bool
        ensures { result ≡ self.now.is_whole }
    {
        self.is_whole
    }

    /// Drops what was written after so many bytes.
    pub fn cut(&mut self, len: usize)
        ensures { self.new.is_whole ≡ self.old.is_whole }
    {
        self.bytes.truncate(len);
    }

    /// What has been written.
    pub fn as_slice(&self) -> &[u8]
        ensures { result.now ≡ self.now.items }
    {
        self.bytes.as_slice()
    }

    /// Adds nothing, but from now on this text is whole only if another is, whose bytes it takes.
    pub fn rests_on(&mut self, other: &Text)
        ensures items { self.new.items ≡ self.old.items }
        ensures whole { IsTrue self.new.is_whole → IsTrue self.old.is_whole × IsTrue other.now.is_whole }
    {
        self.is_whole = self.is_whole && other.is_whole;
    }

    /// Adds nothing, and keeps that memory for something was refused.
    pub fn fail(&mut self)
        ensures { self.new.is_whole ≡ false }
    {
        self.is_whole = false;
    }

    /// Takes the bytes out for a function that adds to a `Vec`. `put_back` gives them back.
    pub fn take(&mut self) -> Vec<u8>
        ensures items { result.items ≡ self.old.items }
        ensures whole { self.new.is_whole ≡ self.old.is_whole }
    {
        let alloc = *self.bytes.allocator();
        mem::replace(&mut self.bytes, Vec::new(alloc))
    }

    /// Gives the bytes back, and whether all was added to them.
    pub fn put_back(&mut self, bytes: Vec<u8>, added: Result<(), AllocError>)
        ensures items { self.new.items ≡ bytes.items }
        ensures whole { IsTrue self.new.is_whole → IsTrue self.old.is_whole × IsOk added }
    {
        self.bytes = bytes;
        self.is_whole = self.is_whole && added.is_ok();
    }

    /// Adds bytes.
    pub fn put(&mut self, bytes: &[u8])
        ensures { Adds self.old self.new bytes.now }
    {
        if self.is_whole {
            self.is_whole = self.bytes.extend_from_slice(bytes).is_ok();
        }
    }

    /// Adds a byte.
    pub fn put_byte(&mut self, byte: u8)
        ensures { Adds self.old self.new (byte ∷ []) }
    {
        if self.is_whole {
            self.is_whole = self.bytes.push(byte).is_ok();
        }
    }

    /// Adds blanks.
    pub fn put_blanks(&mut self, count: usize)
        ensures { Adds self.old self.new (replicate count 32) }
    {
        if self.is_whole {
            self.is_whole = put_blanks(&mut self.bytes, count).is_ok();
        }
    }

    /// Adds blanks up to a width of what was added from a place on.
    pub fn pad(&mut self, from: usize, width: usize)
        ensures { Adds self.old self.new (replicate (width - (length self.old.items - from)) 32) }
    {
        let count = width.saturating_sub(self.bytes.len().saturating_sub(from));
        self.put_blanks(count);
    }

    /// Adds a number, with leading zeros up to the width.
    pub fn put_number(&mut self, width: u8, number: u64)
        ensures { Adds self.old self.new (digits_in width number) }
    {
        if self.is_whole {
            self.is_whole = put_digits(&mut self.bytes, width, number).is_ok();
        }
    }

    /// Adds a cell by its graphic, with a tilde before it if it has a word mark.
    pub fn put_cell(&mut self, cell: Cell)
        ensures { Adds self.old self.new (cell_text cell) }
    {
        if self.is_whole {
            self.is_whole = put_cell(&mut self.bytes, cell).is_ok();
        }
    }

    /// Adds characters by their graphics, without the blanks at their end.
    pub fn put_characters(&mut self, chars: &[Char])
        ensures { Adds self.old self.new (graphics_of (trimmed chars.now)) }
    {
        if self.is_whole {
            self.is_whole = put_characters(&mut self.bytes, chars).is_ok();
        }
    }

    /// Adds pieces, one after the other.
    pub fn put_pieces(&mut self, pieces: &[Piece<'_>])
        ensures { Adds self.old self.new (flat_map piece_text pieces.now) }
    {
        if self.is_whole {
            self.is_whole = put_pieces(&mut self.bytes, pieces).is_ok();
        }
    }

    /// The bytes that were written.
    ///
    /// # Errors
    ///
    /// If memory for some of them was refused.
    pub fn into_bytes(self) -> Result<Vec<u8>, AllocError>
        ensures { IfOk result (λ bytes. IsTrue self.is_whole × (bytes.items ≡ self.items)) }
    {
        let Text { bytes, is_whole } = self;
        if is_whole { Ok(bytes) } else { Err(AllocError) }
    }
}
