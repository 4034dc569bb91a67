//! The text of an answer, and its colours.
ghost use Rattle.std.specs.Prelude.{◌≡◌, false};
ghost use Rattle.operate_console.specs.Ends.{failure_of, is_read, is_unkept, is_write};

use crate::desk::Desk;
use crate::ends::Failure;
use crate::manner::Manner;
use crate::waiting::line_len;
use bytes_streams::{Sink, put_all};
use bytes_text::Text;
use std::alloc::{AllocError, Global};

/// What a terminal is sent before red and bold text, and after it.
const RED: &[u8] = b"\x1b[31m";

const BOLD: &[u8] = b"\x1b[1m";

const PLAIN: &[u8] = b"\x1b[0m";

/// In which way a part of an answer is written.
#[derive(Clone, Copy)]
pub(crate) enum Paint {
    /// As the line of a stop is.
    Bold,
    /// As a fault is.
    Red,
}

/// What a line is answered: its text. One part of it may be in colour.
#[derive(Drop)]
pub(crate) struct Page {
    /// The text so far.
    pub(crate) text: Text,
    from: usize,
    to: usize,
    paint: Paint,
}

impl Page {
    /// A page without a text.
    pub(crate) fn new(alloc: Global) -> Page {
        Page {
            text: Text::new(alloc),
            from: 0,
            to: 0,
            paint: Paint::Bold,
        }
    }

    /// How much text there is by now.
    pub(crate) fn here(&self) -> usize {
        self.text.len()
    }

    /// Adds a text.
    pub(crate) fn put(&mut self, text: &[u8]) -> Result<(), AllocError> {
        self.text.put(text);
        self.written()
    }

    /// Adds a line as a terminal shows what is typed: of a control character, but for a tab, a caret and a graphic.
    pub(crate) fn put_line(&mut self, line: &[u8]) -> Result<(), AllocError> {
        for byte in line {
            if byte.is_ascii_control() && *byte != b'\t' {
                self.text.put_byte(b'^');
                self.text.put_byte(*byte ^ 64);
            } else {
                self.text.put_byte(*byte);
            }
        }
        self.text.put_byte(b'\n');
        self.written()
    }

    /// Whether there was memory for all of the text.
    pub(crate) fn written(&self) -> Result<(), AllocError> {
        if self.text.is_whole() {
            Ok(())
        } else {
            Err(AllocError)
        }
    }

    /// The text from a place on is dropped.
    pub(crate) fn cut(&mut self, from: usize) {
        self.text.cut(from);
    }

    /// The text from a place on is in colour.
    pub(crate) fn paint_from(&mut self, from: usize, paint: Paint) {
        self.from = from;
        self.to = self.text.len();
        self.paint = paint;
    }

    /// The line from a place on is bold, if there is one after it.
    pub(crate) fn paint_line(&mut self, from: usize) {
        let text = self.text.as_slice();
        if from > text.len() {
            return;
        }
        let line = line_len(&text[from..]);
        if from + line + 1 >= text.len() {
            return;
        }
        self.from = from;
        self.to = from + line;
        self.paint = Paint::Bold;
    }

    /// What is sent to a terminal that has colours.
    fn painted(&self, alloc: Global) -> Result<Vec<u8>, AllocError> {
        let mut all = Vec::new(alloc);
        let text = self.text.as_slice();
        if self.from >= self.to || self.to > text.len() {
            all.extend_from_slice(text)?;
            return Ok(all);
        }
        let (front, beyond) = text.split_at(self.to);
        let (front, coloured) = front.split_at(self.from);
        all.extend_from_slice(front)?;
        match self.paint {
            Paint::Bold => all.extend_from_slice(BOLD)?,
            Paint::Red => all.extend_from_slice(RED)?,
        }
        all.extend_from_slice(coloured)?;
        all.extend_from_slice(PLAIN)?;
        all.extend_from_slice(beyond)?;
        Ok(all)
    }

    /// Writes the page, all at once.
    ///
    /// # Errors
    ///
    /// `Write` if the write fails, `Memory` if the memory for the colours is refused.
    fn write<W: Sink>(&self, alloc: Global, manner: &Manner, writer: &mut W) -> Result<(), Failure>
        requires { W.has_failed writer.old ≡ false }
        ensures write { W.has_failed writer.new ≡ is_write (failure_of result) }
        ensures read { is_read (failure_of result) ≡ false }
        ensures kept { is_unkept (failure_of result) ≡ false }
    {
        if manner.colour {
            return match self.painted(alloc) {
                Ok(painted) => match put_all(writer, painted.as_slice()) {
                    Ok(()) => Ok(()),
                    Err(_) => Err(Failure::Write),
                },
                Err(_) => Err(Failure::Memory),
            };
        }
        match put_all(writer, self.text.as_slice()) {
            Ok(()) => Ok(()),
            Err(_) => Err(Failure::Write),
        }
    }

    /// Writes the page, all at once, and to the transcript. Then it has no text.
    ///
    /// # Errors
    ///
    /// As those of `write`.
    pub(crate) fn show<D: Desk, W: Sink>(
        &mut self,
        alloc: Global,
        manner: &Manner,
        desk: &mut D,
        writer: &mut W,
    ) -> Result<(), Failure>
        requires { W.has_failed writer.old ≡ false }
        ensures write { W.has_failed writer.new ≡ is_write (failure_of result) }
        ensures read { is_read (failure_of result) ≡ false }
        ensures kept { is_unkept (failure_of result) ≡ false }
    {
        if self.text.is_empty() {
            return Ok(());
        }
        desk.transcribe(self.text.as_slice());
        let written = self.write(alloc, manner, writer);
        self.text.cut(0);
        self.from = 0;
        self.to = 0;
        written
    }
}
