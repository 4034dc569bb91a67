//! The subcommands as `clap` has them.
use crate::assembling::ASSEMBLE;
use crate::help_texts::HelpTexts;
use crate::journals::{RESUME, SHOW_JOURNAL};
use crate::operating::OPERATE;
use crate::options::{Argument, arg_of};
use crate::reading::{CONSOLE, DISASSEMBLE, LOAD};
use crate::reeling::REEL;
use crate::running::RUN;
use crate::serving::SERVE;
use clap::error::ErrorKind;
use clap::{ArgGroup, Command, Error};
use std::alloc::{AllocError, Global};

/// A subcommand.
pub(crate) struct Subcommand {
    /// Its name.
    pub name: &'static str,
    /// The same, with the program's in front.
    pub whole_name: &'static str,
    /// What the help says that it does.
    pub about: &'static str,
    /// What the help says of the lines that are given to it.
    pub lines: Option<&'static str>,
    /// Whether operators have to come at ports, if they may.
    pub ports: Option<bool>,
    /// Its arguments. In the help they have this order.
    pub arguments: &'static [Argument],
}

/// A subcommand that is given no lines, and to which no operators come.
pub(crate) const PLAIN: Subcommand = Subcommand {
    name: "",
    whole_name: "",
    about: "",
    lines: None,
    ports: None,
    arguments: &[],
};

/// The lines of a session, for the help.
pub(crate) const LINES: &str = "\
Lines, each with one reply:
  DEPOSIT A TEXT  puts the cells of TEXT at address A and above; ~ before one gives it a word mark
  EXAMINE A [N]   shows the cell at address A, or N cells from there on, 1 to 40
  REGS            shows registers, indicators, switches and devices
  START A         sets the I register, and runs nothing
  SWITCH X ON     turns sense switch X on, A to G; SWITCH X OFF turns it off
  FEED TEXT       puts a card with TEXT in its first columns into the hopper
  LOAD            presses the load key: reads a card to 001 and starts there
  RUN N           carries out at most N instructions, 1 to 1000000
  LINE            takes the oldest printed line, with its form and line numbers
  CARD            takes the oldest punched card
  GLANCE A        shows the cell at address A, and how many commands came before; it isn't recorded
  QUIT            ends the session; a journal, if there is one, has what it did";

/// What a person may type, for the help.
pub(crate) const ORDERS: &str = "\
Lines, each begun by a word that may be shortened; these are some of them:
  help                   lists all words
  step 3                 carries out three instructions, and shows what each did
  print TOTAL            shows the field of a label
  list NEXT              shows instructions, with the lines of the source
  set TOTAL = -5         puts a number into a field
  break NEXT if X1 = 12  has a run stop there, if that is so
  continue               runs until something stops it, as Enter does
  back 4                 goes four instructions back
  quit                   ends the console; a journal, if there is one, has what it did";

/// The subcommands. In the help they have this order.
fn subcommands() -> [&'static Subcommand; 10] {
    [
        &CONSOLE,
        &ASSEMBLE,
        &LOAD,
        &DISASSEMBLE,
        &REEL,
        &RUN,
        &OPERATE,
        &SERVE,
        &SHOW_JOURNAL,
        &RESUME,
    ]
}

/// The command of a subcommand, with the texts that the help takes from tables.
fn command_of<'a>(
    alloc: Global,
    texts: &'a HelpTexts,
    of: &Subcommand,
) -> Result<Command<'a>, AllocError> {
    let mut command = Command::new(alloc, of.name).about(of.about);
    if let Some(lines) = of.lines {
        command = command.after_help(lines);
    }
    if let Some(is_required) = of.ports {
        let ports = ArgGroup::new(alloc, "ports")
            .multiple(true)
            .required(is_required);
        command = command.group(ports.arg("port")?.arg("page")?)?;
    }
    for each in of.arguments {
        command = command.arg(arg_of(alloc, texts, each)?)?;
    }
    Ok(command)
}

/// The program with its subcommands.
pub(crate) fn program<'a>(alloc: Global, texts: &'a HelpTexts) -> Result<Command<'a>, AllocError> {
    let mut command = Command::new(alloc, "ibm1401")
        .about("An IBM 1401 card system, every operation proved")
        .subcommand_required(true);
    for each in &subcommands() {
        command = command.subcommand(command_of(alloc, texts, each)?)?;
    }
    Ok(command)
}

/// A refusal of what the subcommand of this name is asked for.
pub(crate) fn refusal(
    alloc: Global,
    texts: &HelpTexts,
    name: &str,
    text: &str,
) -> Result<Error, AllocError> {
    for each in &subcommands() {
        if each.name == name {
            let mut command = command_of(alloc, texts, each)?.bin_name(each.whole_name)?;
            return command.error(ErrorKind::ValueValidation, text);
        }
    }
    Err(AllocError)
}
