//! What a line at the console says.
ghost use Rattle.std.specs.Prelude.{◌≡◌, ℕ, IfOk};
ghost use Rattle.machine_commands.specs.declared.command.Command.{Command};
ghost use Rattle.console_text.specs.declared.line.Line.{Line};
ghost use Rattle.console_text.specs.CommandText.{command_text};
ghost use Rattle.console_text.specs.FitText.{fit_text};
ghost use Rattle.machine_tables.specs.declared.features.Features.{Features};
ghost use Rattle.machine_notation.specs.Cells.{cells_of, spelled};
ghost use Rattle.console_text.specs.AnswerText.{fault_number, fault_text};
ghost use Rattle.console_text.specs.ConsoleLine.{if_cells, ended, deposit_of, examine_of, start_of};
ghost use Rattle.console_text.specs.ConsoleLine.{switch_said, feed_of, run_of, glance_of, said_with, said_in_words};
ghost use Rattle.console_text.specs.ConsoleLine.{said_by};
ghost use Rattle.console_text.specs.LineText.{CanBeSaid, IsLineOf, IsExamineOf, one_cell};

use crate::card_text::card;
use crate::words::{Keyword, address, count, number, setting, split_word, switch};
use core_1401::Cells;
use devices_1401::Card;
use machine_commands::Command;
use machine_notation::{CellsFault, read_cells};
use std::fmt;
use thiserror::Error;

/// The most bytes that a line has.
pub const LINE_LIMIT: usize = 200;

/// What a line says.
#[derive(Clone, Copy)]
pub enum Line {
    /// Nothing: it has blanks alone, and no reply.
    Empty,
    /// A command for the machine.
    Command(Command),
    /// A glance at the cell at an address, which is no command.
    Glance(u16),
    /// The end of the session.
    Quit,
}

/// Why a line says nothing that the console knows: the first fault from left to right.
#[derive(Clone, Copy, Debug, Error)]
pub enum LineFault {
    /// 1: a word that isn't known.
    Word = 1,
    /// 2: a number or an address is missing, or isn't one.
    Number = 2,
    /// 3: a byte of a text is no graphic.
    Graphic = 3,
    /// 4: a text is too short or too long, or the line has more than 200 bytes.
    Length = 4,
    /// 5: something follows the end of the line's command.
    Extra = 5,
}

impl fmt::Display for LineFault {
    fn fmt<W: fmt::Write>(&self, f: &mut fmt::Formatter<W>) -> fmt::Result {
        f.write_str(self.text())
    }
}

impl LineFault {
    /// The number.
    pub fn number(self) -> u8
        ensures { result ≡ fault_number self }
    {
        self as u8
    }

    /// The number and the name, as the console replies them.
    pub fn text(self) -> &'static str
        ensures { result.now ≡ fault_text self }
    {
        match self {
            LineFault::Word => "ERROR 1 WORD",
            LineFault::Number => "ERROR 2 NUMBER",
            LineFault::Graphic => "ERROR 3 GRAPHIC",
            LineFault::Length => "ERROR 4 LENGTH",
            LineFault::Extra => "ERROR 5 EXTRA",
        }
    }
}

/// What a line says: at most 200 bytes, without the line feed that ends it.
///
/// # Errors
///
/// The first fault from left to right; `Length` before all else if there are more bytes.
#[tactic(auto, unfolding(crate::specs::ConsoleLine::said_by))]
pub fn parse_line(line: &[u8]) -> Result<Line, LineFault>
    ensures said { result ≡ said_by line.now }

    // What is typed for a line is read as that line, whatever blanks stand between its words.
    ensures typed { (said : Line) → IsLineOf said line.now → result ≡ Ok said }

    // EXAMINE without a number asks for one cell.
    ensures one { (address : ℕ) → IsExamineOf address line.now → result ≡ Ok (one_cell address) }

    // A command's text is read as that command.
    ensures again { (command : Command) → CanBeSaid (Line.Command command) → line.now ≡ command_text command
        → result ≡ Ok (Line.Command command) }

    // The text of what fits a machine is no line.
    ensures fit { (features : Features) → line.now ≡ fit_text features → result ≡ Err LineFault.Word }

    // Nothing is read that a line can't say.
    ensures sayable { IfOk result CanBeSaid }
{
    if line.len() > LINE_LIMIT {
        return Err(LineFault::Length);
    }
    parse_words(line)
}

/// What the words of a line say.
#[tactic(auto, unfolding(crate::specs::ConsoleLine::said_in_words))]
fn parse_words(line: &[u8]) -> Result<Line, LineFault>
    ensures { result ≡ said_in_words line.now }
{
    let (word, operands) = split_word(line);
    if word.is_empty() {
        return Ok(Line::Empty);
    }
    parse_operands(Keyword::from_word(word), operands)
}

/// What a line says by its first word, which may be unknown, and what follows it.
#[tactic(auto, unfolding(crate::specs::ConsoleLine::said_with))]
fn parse_operands(keyword: Option<Keyword>, operands: &[u8]) -> Result<Line, LineFault>
    ensures { result ≡ said_with keyword operands.now }
{
    match keyword {
        Some(Keyword::Deposit) => deposit(operands),
        Some(Keyword::Examine) => examine(operands),
        Some(Keyword::Regs) => end(operands, Line::Command(Command::Registers)),
        Some(Keyword::Start) => start(operands),
        Some(Keyword::Switch) => switch_line(operands),
        Some(Keyword::Feed) => feed(operands),
        Some(Keyword::Load) => end(operands, Line::Command(Command::LoadKey)),
        Some(Keyword::Run) => run(operands),
        Some(Keyword::Line) => end(operands, Line::Command(Command::TakeLine)),
        Some(Keyword::Card) => end(operands, Line::Command(Command::TakeCard)),
        Some(Keyword::Glance) => glance(operands),
        Some(Keyword::Quit) => end(operands, Line::Quit),
        None => Err(LineFault::Word),
    }
}

/// The line, if nothing but blanks follows it.
#[tactic(auto, unfolding(crate::specs::ConsoleLine::ended))]
fn end(rest: &[u8], line: Line) -> Result<Line, LineFault>
    ensures { result ≡ ended rest.now line }
{
    let (word, _) = split_word(rest);
    if word.is_empty() {
        Ok(line)
    } else {
        Err(LineFault::Extra)
    }
}

/// DEPOSIT a text: all bytes after the address and one blank are the text.
#[tactic(auto, unfolding(crate::specs::ConsoleLine::deposit_of))]
fn deposit(operands: &[u8]) -> Result<Line, LineFault>
    ensures { result ≡ deposit_of operands.now }
{
    let (word, beyond) = split_word(operands);
    let address = address(word)?;
    let cells = cells(beyond.get(1..).unwrap_or(&[]))?;
    Ok(Line::Command(Command::Deposit { address, cells }))
}

/// EXAMINE a, or EXAMINE a n.
#[tactic(auto, unfolding(crate::specs::ConsoleLine::examine_of))]
fn examine(operands: &[u8]) -> Result<Line, LineFault>
    ensures { result ≡ examine_of operands.now }
{
    let (word, beyond) = split_word(operands);
    let address = address(word)?;
    let (word, beyond) = split_word(beyond);
    let count = count(word)?;
    end(beyond, Line::Command(Command::Examine { address, count }))
}

/// START a.
#[tactic(auto, unfolding(crate::specs::ConsoleLine::start_of))]
fn start(operands: &[u8]) -> Result<Line, LineFault>
    ensures { result ≡ start_of operands.now }
{
    let (word, beyond) = split_word(operands);
    let address = address(word)?;
    end(beyond, Line::Command(Command::SetI { address }))
}

/// SWITCH x ON, or SWITCH x OFF.
#[tactic(auto, unfolding(crate::specs::ConsoleLine::switch_said))]
fn switch_line(operands: &[u8]) -> Result<Line, LineFault>
    ensures { result ≡ switch_said operands.now }
{
    let (word, beyond) = split_word(operands);
    let n = switch(word)?;
    let (word, beyond) = split_word(beyond);
    let on = setting(word)?;
    end(beyond, Line::Command(Command::Switch { n, on }))
}

/// FEED a text: all bytes after one blank are the text, and a card without a text is blank.
#[tactic(auto, unfolding(crate::specs::ConsoleLine::feed_of))]
fn feed(operands: &[u8]) -> Result<Line, LineFault>
    ensures { result ≡ feed_of operands.now }
{
    let card = card(operands.get(1..).unwrap_or(&[]))?;
    Ok(Line::Command(Command::Feed { card: Card(card.0) }))
}

/// RUN n.
#[tactic(auto, unfolding(crate::specs::ConsoleLine::run_of))]
fn run(operands: &[u8]) -> Result<Line, LineFault>
    ensures { result ≡ run_of operands.now }
{
    let (word, beyond) = split_word(operands);
    let limit = number(word)?;
    end(beyond, Line::Command(Command::Run { limit }))
}

/// GLANCE a.
#[tactic(auto, unfolding(crate::specs::ConsoleLine::glance_of))]
fn glance(operands: &[u8]) -> Result<Line, LineFault>
    ensures { result ≡ glance_of operands.now }
{
    let (word, beyond) = split_word(operands);
    let address = address(word)?;
    end(beyond, Line::Glance(address))
}

/// The cells that a text spells.
fn cells(text: &[u8]) -> Result<Cells, LineFault>
    ensures { result ≡ if_cells (cells_of (spelled text.now)) }
{
    match read_cells(text) {
        Ok(cells) => Ok(cells),
        Err(CellsFault::Graphic) => Err(LineFault::Graphic),
        Err(CellsFault::Length) => Err(LineFault::Length),
    }
}
