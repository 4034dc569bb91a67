//! The texts of replies, without the line feed that ends them.
ghost use Rattle.std.specs.Prelude.{◌≡◌, ◌++◌, IfOk, OnOk};
ghost use Rattle.machine_notation.specs.Cells.{cells_of, cells_text, spelled};
ghost use Rattle.console_text.specs.AnswerText.{answer_text, IsReadAgain, IsFedAgain};
ghost use Rattle.console_text.specs.AnswerText.{regs_text, ran_text};
ghost use Rattle.console_text.specs.AnswerText.{indicator_text, switch_text, switches_text};
ghost use Rattle.console_text.specs.AnswerText.{line_text, card_text, fault_text, glance_text};

use crate::line::LineFault;
use crate::words::letter;
use bcd_1401::Cell;
use core_1401::Cells;
use devices_1401::{Card, PrintLine};
use machine_commands::Answer;
use machine_notation::{put_cell, put_cells, put_characters, put_digits, put_named_digits};
use machine_tables::{Regs, Stop, SwitchName};
use std::alloc::{AllocError, Global};

/// The text of an answer.
///
/// # Errors
///
/// If the memory for the text is refused.
#[tactic(auto, unfolding(crate::specs::AnswerText::answer_text))]
pub fn reply_text(alloc: Global, answer: &Answer) -> Result<Vec<u8>, AllocError>
    ensures text { IfOk result (λ text. text.items ≡ answer_text answer.now) }

    // Cells that are shown can be deposited as they stand, and a card that is shown can be fed.
    ensures again { IfOk result (λ text. IsReadAgain answer.now text.items) }
{
    match answer {
        Answer::Done => Vec::from_slice(alloc, b"OK"),
        Answer::Cells(cells) => cells_reply(alloc, cells),
        Answer::Regs(regs) => regs_reply(alloc, regs),
        Answer::Ran { steps, stop, i } => ran_reply(alloc, *steps, *stop, *i),
        Answer::Line(line) => line_reply(alloc, line),
        Answer::Card(card) => card_reply(alloc, card),
        Answer::Refused(why) => Vec::from_slice(alloc, why.text().as_bytes()),
    }
}

/// Cells by their graphics, with a tilde before each marked one.
fn cells_reply(alloc: Global, cells: &Cells) -> Result<Vec<u8>, AllocError>
    ensures text { IfOk result (λ text. text.items ≡ cells_text cells.now) }
    ensures again { IfOk result (λ text. cells_of (spelled text.items) ≡ Ok cells.now) }
{
    let mut text = Vec::new(alloc);
    put_cells(&mut text, cells)?;
    Ok(text)
}

/// The registers, each after its name.
#[tactic(auto, unfolding(crate::specs::AnswerText::regs_text))]
fn regs_reply(alloc: Global, regs: &Regs) -> Result<Vec<u8>, AllocError>
    ensures { IfOk result (λ text. text.items ≡ regs_text regs.now) }
{
    let mut text = Vec::new(alloc);
    put_named_digits(&mut text, b"I=", 5, u64::from(regs.i))?;
    put_named_digits(&mut text, b" A=", 5, u64::from(regs.a))?;
    put_named_digits(&mut text, b" B=", 5, u64::from(regs.b))?;
    put_indicator(&mut text, b" UNEQUAL=", regs.unequal)?;
    put_indicator(&mut text, b" LOW=", regs.low)?;
    put_indicator(&mut text, b" HIGH=", regs.high)?;
    put_indicator(&mut text, b" OVERFLOW=", regs.overflow)?;
    put_switches(&mut text, b" SWITCHES=", regs.switches)?;
    put_named_digits(&mut text, b" HOPPER=", 3, u64::from(regs.hopper))?;
    put_named_digits(&mut text, b" STACKER=", 3, u64::from(regs.stacker))?;
    put_named_digits(&mut text, b" PAPER=", 3, u64::from(regs.paper))?;
    put_named_digits(&mut text, b" FORM=", 4, u64::from(regs.form))?;
    put_named_digits(&mut text, b" LINE=", 2, u64::from(regs.line))?;
    Ok(text)
}

/// A run: why it ended, how many instructions were carried out, and the I register.
#[tactic(auto, unfolding(crate::specs::AnswerText::ran_text))]
fn ran_reply(alloc: Global, steps: u32, stop: Stop, i: u16) -> Result<Vec<u8>, AllocError>
    ensures { IfOk result (λ text. text.items ≡ ran_text steps stop i) }
{
    let mut text = Vec::new(alloc);
    put_named_digits(&mut text, b"STOP ", 2, u64::from(stop.number()))?;
    text.extend_from_slice(b" ")?;
    text.extend_from_slice(stop.name().as_bytes())?;
    put_named_digits(&mut text, b" STEPS ", 1, u64::from(steps))?;
    put_named_digits(&mut text, b" I ", 5, u64::from(i))?;
    Ok(text)
}

/// A printed line: its form, its line, and its characters without the blanks at their end.
#[tactic(auto, unfolding(crate::specs::AnswerText::line_text))]
fn line_reply(alloc: Global, line: &PrintLine) -> Result<Vec<u8>, AllocError>
    ensures { IfOk result (λ text. text.items ≡ line_text line.now) }
{
    let mut text = Vec::new(alloc);
    put_named_digits(&mut text, b"LINE ", 4, u64::from(line.form))?;
    put_named_digits(&mut text, b" ", 2, u64::from(line.line))?;
    text.extend_from_slice(b" ")?;
    put_characters(&mut text, &line.text)?;
    Ok(text)
}

/// A card: its characters without the blanks at their end.
#[tactic(auto, unfolding(crate::specs::AnswerText::card_text))]
fn card_reply(alloc: Global, card: &Card) -> Result<Vec<u8>, AllocError>
    ensures text { IfOk result (λ text. text.items ≡ card_text card.now) }
    ensures again { IfOk result (λ text. IsFedAgain card.now text.items) }
{
    let mut text = Vec::from_slice(alloc, b"CARD ")?;
    put_characters(&mut text, &card.0)?;
    Ok(text)
}

/// Adds a name, and then whether an indicator is on.
fn put_indicator(text: &mut Vec<u8>, name: &[u8], on: bool) -> Result<(), AllocError>
    ensures { OnOk result (text.new.items ≡ text.old.items ++ name.now ++ indicator_text on) }
{
    text.extend_from_slice(name)?;
    text.extend_from_slice(if on { b"1" } else { b"0" })
}

/// Adds a name, and then the letters of the switches that are on.
#[tactic(auto, unfolding(crate::specs::AnswerText::switches_text))]
fn put_switches(text: &mut Vec<u8>, name: &[u8], switches: [bool; 7]) -> Result<(), AllocError>
    ensures { OnOk result (text.new.items ≡ text.old.items ++ name.now ++ switches_text switches) }
{
    text.extend_from_slice(name)?;
    put_switch_letter(text, switches, SwitchName::A)?;
    put_switch_letter(text, switches, SwitchName::B)?;
    put_switch_letter(text, switches, SwitchName::C)?;
    put_switch_letter(text, switches, SwitchName::D)?;
    put_switch_letter(text, switches, SwitchName::E)?;
    put_switch_letter(text, switches, SwitchName::F)?;
    put_switch_letter(text, switches, SwitchName::G)
}

/// Adds the letter of a switch that is on, and - for one that is off.
fn put_switch_letter(
    text: &mut Vec<u8>,
    switches: [bool; 7],
    switch: SwitchName,
) -> Result<(), AllocError>
    ensures { OnOk result (text.new.items ≡ text.old.items ++ switch_text switches switch) }
{
    let on = switches[usize::from(switch.number())];
    text.extend_from_slice(if on { letter(switch) } else { b"-" })
}

/// A glance: after how many commands, and the cell there then.
///
/// # Errors
///
/// If the memory for the text is refused.
#[tactic(auto, unfolding(crate::specs::AnswerText::glance_text))]
pub fn glance_text(alloc: Global, after: u64, cell: Cell) -> Result<Vec<u8>, AllocError>
    ensures { IfOk result (λ text. text.items ≡ glance_text after cell) }
{
    let mut text = Vec::from_slice(alloc, b"AFTER ")?;
    put_digits(&mut text, 1, after)?;
    text.extend_from_slice(b" ")?;
    put_cell(&mut text, cell)?;
    Ok(text)
}

/// The text of a line's fault.
pub fn fault_text(fault: LineFault) -> &'static [u8]
    ensures { result.now ≡ fault_text fault }
{
    fault.text().as_bytes()
}
