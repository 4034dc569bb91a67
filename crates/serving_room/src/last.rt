//! What was last done at a machine.
ghost use Rattle.std.specs.Prelude.{◌≡◌};
ghost use Rattle.bytes_text.specs.Written.{Adds};
ghost use Rattle.serving_room.specs.Lasts.{act_of, act_text};

use bytes_text::Text;
use machine_commands::Command;

/// What a command does, without what it does it with.
#[derive(Clone, Copy)]
pub(crate) enum Act {
    /// Cells were deposited.
    Deposit,
    /// Cells were shown.
    Examine,
    /// The registers were shown.
    Registers,
    /// The I register was set.
    Start,
    /// A sense switch was turned.
    Switch,
    /// A card was fed.
    Feed,
    /// The load key was pressed.
    Load,
    /// Up to this many instructions were carried out.
    Run(u32),
    /// A printed line was taken.
    Line,
    /// A punched card was taken.
    Card,
    /// The machine was fitted with features.
    Fit,
}

/// The last command, and the seat that gave it.
#[derive(Clone, Copy)]
pub(crate) struct Last {
    /// The number of the seat.
    pub seat: u8,
    /// What it did.
    pub act: Act,
}

/// What a command does.
pub(crate) fn act_of(command: &Command) -> Act
    ensures { result ≡ act_of command.now }
{
    match command {
        Command::Deposit {
            address: _,
            cells: _,
        } => Act::Deposit,
        Command::Examine {
            address: _,
            count: _,
        } => Act::Examine,
        Command::Registers => Act::Registers,
        Command::SetI { address: _ } => Act::Start,
        Command::Switch { n: _, on: _ } => Act::Switch,
        Command::Feed { card: _ } => Act::Feed,
        Command::LoadKey => Act::Load,
        Command::Run { limit } => Act::Run(*limit),
        Command::TakeLine => Act::Line,
        Command::TakeCard => Act::Card,
        Command::Fit(_) => Act::Fit,
    }
}

/// Adds the console's word for it, or a journal's where a console has none; for a run also its limit.
pub(crate) fn put_act(text: &mut Text, act: Act)
    ensures { Adds text.old text.new (act_text act) }
{
    match act {
        Act::Deposit => text.put(b"DEPOSIT"),
        Act::Examine => text.put(b"EXAMINE"),
        Act::Registers => text.put(b"REGS"),
        Act::Start => text.put(b"START"),
        Act::Switch => text.put(b"SWITCH"),
        Act::Feed => text.put(b"FEED"),
        Act::Load => text.put(b"LOAD"),
        Act::Run(limit) => {
            text.put(b"RUN ");
            text.put_number(1, u64::from(limit));
        }
        Act::Line => text.put(b"LINE"),
        Act::Card => text.put(b"CARD"),
        Act::Fit => text.put(b"FIT"),
    }
}
