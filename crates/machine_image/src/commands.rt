//! The commands by which an image is loaded.
ghost use Rattle.std.specs.Prelude.{◌≡◌, ◌∷◌, [], None, MatchOption};
ghost use Rattle.std.specs.Iterator.{YieldsFirst, item_count};
ghost use Rattle.machine_image.specs.Left.{segments_left};
ghost use Rattle.machine_image.specs.Loading.{load_commands};

use crate::{Image, LentImage, Segment};
use machine_commands::Command;
use std::marker::Model;

/// The segments of an image that aren't deposited yet.
#[derive(Drop)]
pub(crate) enum SegmentsLeft<'a> {
    /// Those of an image.
    Kept(&'a [Segment]),
    /// Those of an image that is lent: one is held at a time.
    Lent(LentImage<'a>),
}

impl<'a> SegmentsLeft<'a> {
    /// The first segment, which isn't left any longer; `None` if none is left.
    fn take_first(&mut self) -> Option<Segment>
        ensures first { MatchOption result (segments_left self.old ≡ []) (λ first.
            segments_left self.old ≡ first ∷ segments_left self.new) }
        ensures none { result ≡ None → self.new ≡ self.old }
    {
        match self {
            SegmentsLeft::Kept(segments) => {
                let (first, others) = segments.split_first()?;
                *segments = others;
                Some(*first)
            }
            SegmentsLeft::Lent(image) => {
                let (first, others) = image.split_first()?;
                *image = others;
                Some(first)
            }
        }
    }
}

/// The commands by which an image is loaded: each segment is deposited, in order, and then the I register is set to the
/// entry. Contracts see the list of those that are left.
#[derive(Drop)]
pub struct LoadCommands<'a> {
    segments: SegmentsLeft<'a>,
    start: Option<u16>,
}

impl<'a> Model for LoadCommands<'a> {
    ghost use Rattle.std.specs.Prelude.{List};
    ghost use Rattle.machine_commands.specs.declared.command.Command.{Command};
    ghost use Rattle.machine_image.specs.Left.{commands_left, segments_left};

    ghost Value = { List Command };

    ghost view = { λ commands. commands_left (segments_left commands.segments) commands.start };
}

impl<'a> LoadCommands<'a> {
    /// Those of an image.
    pub fn of_kept(image: &'a Image) -> LoadCommands<'a>
        ensures { result ≡ load_commands image.now }
    {
        LoadCommands {
            segments: SegmentsLeft::Kept(image.segments.as_slice()),
            start: Some(image.start),
        }
    }

    /// Those of an image that is lent.
    pub fn of_lent(image: &LentImage<'a>) -> LoadCommands<'a>
        ensures { result ≡ load_commands image.now }
    {
        LoadCommands {
            segments: SegmentsLeft::Lent(image.again()),
            start: Some(image.start()),
        }
    }
}

impl<'a> Iterator for LoadCommands<'a> {
    type Item = Command;

    ghost next_gives = { YieldsFirst (λ commands. commands) };

    ghost remaining = { item_count (λ commands. commands) };

    fn next(&mut self) -> Option<Command> {
        if let Some(Segment { address, cells }) = self.segments.take_first() {
            return Some(Command::Deposit { address, cells });
        }
        let address = self.start.take()?;
        Some(Command::SetI { address })
    }
}
