//! Printed lines, each with its form and its line.
ghost use Rattle.std.specs.Prelude.{slice_get};
ghost use Rattle.bytes_text.specs.Written.{Adds};
ghost use Rattle.operate_views.specs.Paper.{line_text, paper_text, printed_text};

use bytes_text::{Piece, Text};
use devices_1401::{Devices, PrintLine};
use std::alloc::Global;

/// The columns of a form's number.
const FORM_COLUMNS: usize = 4;

/// Adds a printed line with its form and its line, and a line feed.
#[tactic(auto, unfolding(crate::specs::Paper::printed_text, crate::specs::Paper::form_text))]
pub fn put_printed(alloc: Global, text: &mut Text, line: &PrintLine)
    ensures { Adds text.old text.new (printed_text line.now) }
{
    let mut form = Text::new(alloc);
    form.put_number(1, u64::from(line.form));
    text.rests_on(&form);
    text.put_blanks(FORM_COLUMNS.saturating_sub(form.len()));
    text.put(form.as_slice());
    text.put_pieces(&[
        Piece::Text(b"/"),
        Piece::Number(2, line.line as u16),
        Piece::Text(b" |"),
        Piece::Characters(line.text.as_slice()),
        Piece::Text(b"\n"),
    ]);
}

/// Adds the printed line of this index on the paper, if there is one.
fn put_line_at(alloc: Global, text: &mut Text, devices: &Devices, at: usize)
    ensures { Adds text.old text.new (line_text (slice_get devices.now.paper at)) }
{
    match devices.printed_line(at) {
        Some(line) => put_printed(alloc, text, &line),
        None => (),
    }
}

/// Adds the last lines on the paper, this many at most, the oldest first.
pub fn put_paper(alloc: Global, text: &mut Text, devices: &Devices, most: usize)
    ensures { Adds text.old text.new (paper_text most devices.now.paper) }
{
    let count = usize::from(devices.paper());
    for at in count.saturating_sub(most)..count {
        put_line_at(alloc, text, devices, at);
    }
}
