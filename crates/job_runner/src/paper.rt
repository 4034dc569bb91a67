//! The paper as a text: each line at its place on the form, and a form feed for each new form.
ghost use Rattle.std.specs.Prelude.{◌≡◌, ◌++◌, replicate, IfOk, OnOk};
ghost use Rattle.job_runner.specs.Paper.{line_text, new_forms, paper_text, place_after, place_beyond};
ghost use Rattle.job_runner.specs.PaperRead.{IsOnlyPaper, IsReadBack};

use devices_1401::PrintLine;
use machine_notation::put_characters;
use std::alloc::AllocError;

/// Forms are numbered modulo 10,000.
const FORMS: u32 = 10_000;

/// The place at which the next line of a text is.
#[derive(Clone, Copy)]
pub struct PaperPlace {
    /// The form.
    pub form: u16,
    /// The line of the form, from 1 on.
    pub line: u16,
}

impl PaperPlace {
    /// The first line of form 1.
    pub const FIRST: PaperPlace = PaperPlace { form: 1, line: 1 };
}

/// Adds a byte as many times as asked for.
fn put_times(text: &mut Vec<u8>, count: u32, byte: u8) -> Result<(), AllocError>
    ensures { OnOk result (text.new.items ≡ text.old.items ++ replicate count byte) }
{
    let mut done = 0;
    while done < count {
        text.push(byte)?;
        done += 1;
    }
    Ok(())
}

/// How many new forms the paper comes to between a place and a line. The carriage only goes down, so a line above the
/// place on a form of the same number is 10,000 forms further on.
fn new_forms(place: PaperPlace, line: &PrintLine) -> u32
    ensures { result ≡ new_forms place line.now }
{
    let on = (u32::from(line.form) + FORMS - u32::from(place.form) % FORMS) % FORMS;
    if on == 0 && u16::from(line.line) < place.line {
        FORMS
    } else {
        on
    }
}

/// Adds a printed line to a text that has reached a place, and returns the place below the line.
#[tactic(auto, unfolding(crate::specs::Paper::line_text))]
fn put_line(
    text: &mut Vec<u8>,
    place: PaperPlace,
    line: &PrintLine,
) -> Result<PaperPlace, AllocError>
    ensures text { OnOk result (text.new.items ≡ text.old.items ++ line_text place line.now) }
    ensures place { IfOk result (λ next. next ≡ place_after line.now) }
{
    let forms = new_forms(place, line);
    let from = if forms == 0 { place.line } else { 1 };
    let number = u16::from(line.line);
    put_times(text, forms, b'\x0c')?;
    put_times(text, u32::from(number.saturating_sub(from)), b'\n')?;
    put_characters(text, &line.text)?;
    text.push(b'\n')?;
    Ok(PaperPlace {
        form: line.form,
        line: number + 1,
    })
}

/// Adds printed lines to a text that has reached a place, and returns the place that it reaches then.
///
/// # Errors
///
/// If the memory for the text is refused. Part of it may have been added.
pub fn put_paper(
    text: &mut Vec<u8>,
    place: PaperPlace,
    lines: &[PrintLine],
) -> Result<PaperPlace, AllocError>
    ensures text { OnOk result (text.new.items ≡ text.old.items ++ paper_text place lines.now) }
    ensures place { IfOk result (λ next. next ≡ place_beyond place lines.now) }

    // The text shows the form, the line and the graphics of each line, and no paper that differs in them has this text.
    ensures again { OnOk result (IsReadBack place lines.now) }
    ensures only { OnOk result (IsOnlyPaper place lines.now) }
{
    let mut next = place;
    for line in lines {
        next = put_line(text, next, line)?;
    }
    Ok(next)
}
