//! Paper and punched cards kept in memory.
ghost use Rattle.std.specs.Prelude.{◌≡◌, [], false};

use crate::fault::JobFault;
use crate::output::Output;
use devices_1401::{Card, PrintLine};
use std::alloc::Global;

/// An output that keeps all lines and cards in memory.
#[derive(Drop)]
pub struct Collected {
    pub lines: Vec<PrintLine>,
    pub cards: Vec<Card>,
}

impl Collected {
    /// An empty output.
    pub fn new(alloc: Global) -> Collected
        ensures lines { result.lines.items ≡ [] }
        ensures cards { result.cards.items ≡ [] }
    {
        Collected {
            lines: Vec::new(alloc),
            cards: Vec::new(alloc),
        }
    }
}

impl Output for Collected {
    ghost lines = { λ c. c.lines.items };

    ghost cards = { λ c. c.cards.items };

    ghost has_failed = { λ _. false };

    fn put_line(&mut self, line: &PrintLine) -> Result<(), JobFault> {
        match self.lines.push(PrintLine {
            form: line.form,
            line: line.line,
            text: line.text,
        }) {
            Ok(()) => Ok(()),
            Err(_) => Err(JobFault::Memory),
        }
    }

    fn put_card(&mut self, card: &Card) -> Result<(), JobFault> {
        match self.cards.push(Card(card.0)) {
            Ok(()) => Ok(()),
            Err(_) => Err(JobFault::Memory),
        }
    }
}
