//! The texts of commands, which are read again as lines.
ghost use Rattle.std.specs.Prelude.{◌≡◌, ◌++◌, OnOk};
ghost use Rattle.console_text.specs.CommandText.{command_text};
ghost use Rattle.console_text.specs.LineText.{setting_text};
ghost use Rattle.console_text.specs.Words.{letter_of};

use crate::fit_text::put_fit;
use crate::words::letter;
use core_1401::Cells;
use devices_1401::Card;
use machine_commands::Command;
use machine_notation::{put_cells, put_characters, put_named_digits};
use machine_tables::SwitchName;
use std::alloc::AllocError;

/// Adds the text of a command, the line by which it is typed (own). `parse_line` reads it as that command, if a line
/// can say it: an address of 16,000 or more and a number of more than seven digits are written, and can't be read. What
/// fits a machine has no line, and `parse_fit` reads its text.
///
/// # Errors
///
/// If the memory for the text is refused. A part of it may have been added then.
#[tactic(auto, unfolding(crate::specs::CommandText::command_text))]
pub fn put_command(text: &mut Vec<u8>, command: &Command) -> Result<(), AllocError>
    ensures { OnOk result (text.new.items ≡ text.old.items ++ command_text command.now) }
{
    match command {
        Command::Deposit { address, cells } => put_deposit(text, *address, cells),
        Command::Examine { address, count } => put_examine(text, *address, *count),
        Command::Registers => text.extend_from_slice(b"REGS"),
        Command::SetI { address } => put_named_digits(text, b"START ", 4, u64::from(*address)),
        Command::Switch { n, on } => put_switch(text, *n, *on),
        Command::Feed { card } => put_feed(text, card),
        Command::LoadKey => text.extend_from_slice(b"LOAD"),
        Command::Run { limit } => put_named_digits(text, b"RUN ", 1, u64::from(*limit)),
        Command::TakeLine => text.extend_from_slice(b"LINE"),
        Command::TakeCard => text.extend_from_slice(b"CARD"),
        Command::Fit(features) => put_fit(text, *features),
    }
}

/// Adds the text of DEPOSIT.
#[tactic(auto, unfolding(crate::specs::CommandText::command_text))]
fn put_deposit(text: &mut Vec<u8>, address: u16, cells: &Cells) -> Result<(), AllocError>
    ensures { OnOk result (text.new.items ≡ text.old.items ++ command_text (Command.Deposit address cells.now)) }
{
    put_named_digits(text, b"DEPOSIT ", 4, u64::from(address))?;
    text.extend_from_slice(b" ")?;
    put_cells(text, cells)
}

/// Adds the text of EXAMINE.
#[tactic(auto, unfolding(crate::specs::CommandText::command_text))]
fn put_examine(text: &mut Vec<u8>, address: u16, count: u32) -> Result<(), AllocError>
    ensures { OnOk result (text.new.items ≡ text.old.items ++ command_text (Command.Examine address count)) }
{
    put_named_digits(text, b"EXAMINE ", 4, u64::from(address))?;
    put_named_digits(text, b" ", 1, u64::from(count))
}

/// Adds the text of SWITCH.
#[tactic(auto, unfolding(crate::specs::CommandText::command_text))]
fn put_switch(text: &mut Vec<u8>, n: SwitchName, on: bool) -> Result<(), AllocError>
    ensures { OnOk result (text.new.items ≡ text.old.items ++ command_text (Command.Switch n on)) }
{
    text.extend_from_slice(b"SWITCH ")?;
    text.extend_from_slice(letter(n))?;
    text.extend_from_slice(b" ")?;
    text.extend_from_slice(setting_name(on))
}

/// Adds the text of FEED.
#[tactic(auto, unfolding(crate::specs::CommandText::command_text))]
fn put_feed(text: &mut Vec<u8>, card: &Card) -> Result<(), AllocError>
    ensures { OnOk result (text.new.items ≡ text.old.items ++ command_text (Command.Feed card.now)) }
{
    text.extend_from_slice(b"FEED ")?;
    put_characters(text, &card.0)
}

/// ON, or OFF.
fn setting_name(on: bool) -> &'static [u8]
    ensures { result.now ≡ setting_text on }
{
    if on { b"ON" } else { b"OFF" }
}
