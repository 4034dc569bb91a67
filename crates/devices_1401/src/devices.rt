//! The card reader, the punch and the printer.
ghost use Rattle.std.specs.Prelude.{◌≡◌, ◌+◌, ◌%◌, ◌<◌, ◌≤◌, not, length, slice_get, is_ok, IfOk, IfErr, OnOk, OnErr};
ghost use Rattle.std.specs.Prelude.{None, Ok, Err, if◌then◌else◌};
ghost use Rattle.std.specs.Result.{result_ok};
ghost use Rattle.devices_1401.specs.Carriage.{positions, form_of, line_of, controlled, is_at_channel, IsMovedOn};
ghost use Rattle.devices_1401.specs.Devices.{no_cards, most_held, is_full, fed, punched, printed};
ghost use Rattle.devices_1401.specs.Devices.{after_read, after_card, after_line};
ghost use Rattle.devices_1401.specs.Devices.{next_card, last_punched};
ghost use Rattle.devices_1401.specs.Movement.{pending_of};

use crate::card::Card;
use crate::carriage::{LINES_OF_FORM, POSITIONS, position_after};
use crate::control::{Control, Hole, Movement, Spaces};
use crate::fault::{ControlFault, FormsFull, HopperFull, ReaderEmpty, StackerFull};
use crate::print_line::PrintLine;
use bcd_1401::Char;
use circular_buffer::HeapCircularBuffer;
use std::alloc::{AllocError, Global};
use std::marker::Model;

/// The most cards that the hopper and the stacker hold, and the most printed lines that wait to be taken.
pub const MOST_HELD: usize = 500;

/// The card reader, the punch and the printer. Contracts see the cards and the printed lines as lists, each oldest
/// first, and the carriage.
#[derive(Drop)]
pub struct Devices {
    hopper: HeapCircularBuffer<Card>,
    stacker: HeapCircularBuffer<Card>,
    paper: HeapCircularBuffer<PrintLine>,
    position: u32,
    pending: Option<Movement>,
}

impl Model for Devices {
    ghost use Rattle.std.specs.Prelude.{◌≡◌, ◌<◌, ◌≤◌, length};
    ghost use Rattle.devices_1401.specs.Carriage.{positions};
    ghost use Rattle.devices_1401.specs.Devices.{Devices, most_held};
    ghost use Rattle.devices_1401.specs.Movement.{pending_of};

    ghost Value = { Devices };

    ghost view = { λ d. record {
      hopper = d.hopper.items;
      stacker = d.stacker.items;
      paper = d.paper.items;
      carriage = record { position = d.position; pending = pending_of d.pending };
    } };

    ghost invariant = { λ d.
        (d.hopper.capacity ≡ most_held) × (d.stacker.capacity ≡ most_held) × (d.paper.capacity ≡ most_held)
        × (d.position < positions) };
}

impl Devices {
    /// The devices as they are at power-on: nothing in the hopper, in the stacker and on the paper, and the carriage
    /// at line 1 of form 1. All the memory that they ever take is taken here.
    ///
    /// # Errors
    ///
    /// If there is no memory for the cards and the lines.
    pub fn power_on(alloc: Global) -> Result<Devices, AllocError>
        ensures { IfOk result (λ devices. devices ≡ no_cards) }
    {
        Ok(Devices {
            hopper: HeapCircularBuffer::with_capacity(alloc, MOST_HELD)?,
            stacker: HeapCircularBuffer::with_capacity(alloc, MOST_HELD)?,
            paper: HeapCircularBuffer::with_capacity(alloc, MOST_HELD)?,
            position: LINES_OF_FORM,
            pending: None,
        })
    }

    /// Copies all cards and lines of other devices, and the position of their carriage. It takes no memory.
    pub fn copy_from(&mut self, other: &Devices)
        ensures { self.new ≡ other.now }
    {
        copy_ring(&mut self.hopper, &other.hopper);
        copy_ring(&mut self.stacker, &other.stacker);
        copy_ring(&mut self.paper, &other.paper);
        self.position = other.position;
        self.pending = other.pending;
    }

    /// Adds a card to the hopper, after those in it.
    ///
    /// # Errors
    ///
    /// If the hopper holds 500 cards.
    pub fn feed(&mut self, card: Card) -> Result<(), HopperFull>
        ensures refused { is_ok result ≡ not (is_full self.old.hopper) }
        ensures devices { self.new ≡ (if is_ok result then fed self.old card else self.old) }
    {
        match self.hopper.try_push_back(Card(card.0)) {
            Ok(()) => Ok(()),
            Err(_) => Err(HopperFull),
        }
    }

    /// Takes the first card of the hopper.
    ///
    /// # Errors
    ///
    /// If the hopper is empty.
    pub fn read(&mut self) -> Result<Card, ReaderEmpty>
        ensures card { result_ok result ≡ slice_get self.old.hopper 0 }
        ensures devices { self.new ≡ after_read self.old }
    {
        match self.hopper.pop_front() {
            Some(card) => Ok(card),
            None => Err(ReaderEmpty),
        }
    }

    /// Adds a card to the stacker, after those in it.
    ///
    /// # Errors
    ///
    /// If the stacker holds 500 cards.
    pub fn punch(&mut self, card: Card) -> Result<(), StackerFull>
        ensures refused { is_ok result ≡ not (is_full self.old.stacker) }
        ensures devices { self.new ≡ (if is_ok result then punched self.old card else self.old) }
    {
        match self.stacker.try_push_back(Card(card.0)) {
            Ok(()) => Ok(()),
            Err(_) => Err(StackerFull),
        }
    }

    /// Prints a line at the carriage's position, and moves the carriage by the pending movement, which is cleared, or
    /// by one line if none is pending.
    ///
    /// # Errors
    ///
    /// If 500 printed lines wait to be taken.
    pub fn print(&mut self, text: [Char; 132]) -> Result<(), FormsFull>
        ensures refused { is_ok result ≡ not (is_full self.old.paper) }
        ensures devices { self.new ≡ (if is_ok result then printed self.old text else self.old) }

        // The next line is printed 1 to 66 lines further on, unless the carriage is moved in between.
        ensures on { OnOk result (IsMovedOn self.old.carriage.position self.new.carriage.position) }

        // If nothing is pending, each line is one below the line before, and on the next form after 66 of them.
        ensures count { OnOk result (self.old.carriage.pending ≡ None
            → self.new.carriage ≡ record { position = (self.old.carriage.position + 1) % positions; pending = None }) }
    {
        let line = PrintLine {
            form: self.form(),
            line: self.line(),
            text,
        };
        match self.paper.try_push_back(line) {
            Ok(()) => {
                let movement = self.pending.unwrap_or(Movement::SpaceBy(Spaces::One));
                self.position = position_after(self.position, movement);
                self.pending = None;
                Ok(())
            }
            Err(_) => Err(FormsFull),
        }
    }

    /// Takes the oldest card of the stacker; `None` if it is empty.
    pub fn take_card(&mut self) -> Option<Card>
        ensures card { result ≡ slice_get self.old.stacker 0 }
        ensures devices { self.new ≡ after_card self.old }
    {
        self.stacker.pop_front()
    }

    /// Takes the oldest line of the paper; `None` if there is none.
    pub fn take_line(&mut self) -> Option<PrintLine>
        ensures line { result ≡ slice_get self.old.paper 0 }
        ensures devices { self.new ≡ after_line self.old }
    {
        self.paper.pop_front()
    }

    /// Moves the carriage as a d-character asks, now or after the next print. An immediate movement leaves the
    /// pending one, and a new pending one takes its place (A24-1403, "Control Carriage").
    ///
    /// # Errors
    ///
    /// `DChar` if the character asks for nothing; `Carriage` if it asks for a skip to a channel without a hole.
    #[tactic(auto, unfolding(crate::specs::Carriage::controlled))]
    pub fn control(&mut self, char: Char) -> Result<(), ControlFault>
        ensures ok { OnOk result (controlled self.old.carriage char ≡ Ok self.new.carriage) }
        ensures err { IfErr result (λ fault. controlled self.old.carriage char ≡ Err fault) }
        ensures devices { self.new ≡ record self.old { carriage = self.new.carriage } }
        ensures unchanged { OnErr result (self.new ≡ self.old) }
    {
        let control = Control::of(char)?;
        if control.immediate {
            self.position = position_after(self.position, control.movement);
        } else {
            self.pending = Some(control.movement);
        }
        Ok(())
    }

    /// Whether the carriage is at the line of a channel's hole; false if the channel has no hole.
    pub fn at_channel(&self, channel: u8) -> bool
        ensures { result ≡ is_at_channel self.now.carriage channel }
    {
        match Hole::of_channel(channel) {
            Some(hole) => u32::from(self.line()) == hole.line(),
            None => false,
        }
    }

    /// How many cards are in the hopper, at most 500.
    pub fn hopper(&self) -> u16
        ensures value { result ≡ length self.now.hopper }
        ensures bound { result ≤ most_held }
    {
        self.hopper.len() as u16
    }

    /// How many cards are in the stacker, at most 500.
    pub fn stacker(&self) -> u16
        ensures value { result ≡ length self.now.stacker }
        ensures bound { result ≤ most_held }
    {
        self.stacker.len() as u16
    }

    /// How many printed lines wait to be taken, at most 500.
    pub fn paper(&self) -> u16
        ensures value { result ≡ length self.now.paper }
        ensures bound { result ≤ most_held }
    {
        self.paper.len() as u16
    }

    /// The first card of the hopper, which is read next; `None` if the hopper is empty.
    pub fn next_card(&self) -> Option<Card>
        ensures { result ≡ next_card self.now }
    {
        self.hopper.front().copied()
    }

    /// The newest card of the stacker, which was punched last; `None` if the stacker is empty.
    pub fn last_punched(&self) -> Option<Card>
        ensures { result ≡ last_punched self.now }
    {
        self.stacker.back().copied()
    }

    /// A line of the paper by its index from the oldest, 0; `None` if there are no more lines than that.
    pub fn printed_line(&self, at: usize) -> Option<PrintLine>
        ensures { result ≡ slice_get self.now.paper at }
    {
        self.paper.get(at).copied()
    }

    /// The form at the carriage, 1 to 9,999, and 0 after that.
    pub fn form(&self) -> u16
        ensures value { result ≡ form_of self.now.carriage }
        ensures bound { result < 10000 }
    {
        (self.position / LINES_OF_FORM) as u16
    }

    /// The line of the form, 1 to 66.
    pub fn line(&self) -> u8
        ensures value { result ≡ line_of self.now.carriage }
        ensures least { 1 ≤ result }
        ensures bound { result ≤ 66 }
    {
        (self.position % LINES_OF_FORM + 1) as u8
    }

    /// The movement that waits for the next print; `None` if none does, and the next print spaces one line.
    pub fn pending_movement(&self) -> Option<Movement>
        ensures { pending_of result ≡ self.now.carriage.pending }
    {
        self.pending
    }
}

/// Copies all items of another ring that holds as many.
fn copy_ring<T: Copy>(ring: &mut HeapCircularBuffer<T>, other: &HeapCircularBuffer<T>)
    requires { ring.old.capacity ≡ other.now.capacity }
    ensures { ring.new ≡ other.now }
{
    let _capacity = other.capacity();
    let (front, back) = other.as_slices();
    ring.clear();
    ring.extend_from_slice(front);
    ring.extend_from_slice(back);
}
