//! What is wrong with a command line whose words are those of a subcommand.
ghost use Rattle.std.specs.Prelude.{◌≡◌, true, false, string_bytes};
ghost use Rattle.clap.specs.Words.{found_of};
ghost use Rattle.program_arguments.specs.Options.{IsNameIn, Reads};

use clap::ArgMatches;
use std::alloc::{AllocError, Global};

/// The first fault of a command line. Readers go on after a fault, so none of them has an early exit.
#[derive(Drop)]
pub(crate) struct Faults {
    /// The allocator of what is read.
    pub(crate) alloc: Global,
    /// Whether there is no fault.
    pub(crate) are_none: bool,
    /// What is wrong; without a text memory was refused.
    pub(crate) text: Option<String>,
}

impl Faults {
    /// Keeps a fault, if it is the first. This is its text, if there was memory for it.
    pub(crate) fn refuse(&mut self, text: Result<String, AllocError>)
        ensures { self.new.are_none ≡ false }
    {
        if self.are_none {
            self.are_none = false;
            self.text = text.ok();
        }
    }

    /// Keeps a fault with this text where something isn't as it should be.
    pub(crate) fn check(&mut self, is_fine: bool, text: &str)
        ensures { Reads self.old.are_none self.new.are_none (is_fine ≡ true) }
    {
        if !is_fine {
            self.refuse(String::from_str(self.alloc, text));
        }
    }

    /// Keeps that memory was refused where something wasn't kept.
    pub(crate) fn keep(&mut self, is_kept: bool)
        ensures { Reads self.old.are_none self.new.are_none (is_kept ≡ true) }
    {
        if !is_kept {
            self.refuse(Err(AllocError));
        }
    }

    /// A text of its own.
    pub(crate) fn own(&mut self, text: &str) -> String
        ensures { Reads self.old.are_none self.new.are_none (string_bytes result ≡ text.now) }
    {
        match String::from_str(self.alloc, text) {
            Ok(text) => text,
            Err(_) => {
                self.are_none = false;
                String::new(self.alloc)
            }
        }
    }

    /// The value of an option, if it is there.
    pub(crate) fn name(&mut self, matches: &ArgMatches<'_>, option: &str) -> Option<String>
        ensures { Reads self.old.are_none self.new.are_none (IsNameIn (found_of matches.now) option.now result) }
    {
        match matches.get_str(option) {
            Some(name) => Some(self.own(name)),
            None => None,
        }
    }
}
