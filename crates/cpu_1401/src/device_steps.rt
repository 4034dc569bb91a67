//! Cards read and punched, lines printed, and the carriage controlled.
ghost use Rattle.std.specs.Prelude.{◌≡◌, ℕ, ◌+◌, ◌^◌, ◌<◌, ◌≤◌, true, false, IsSome, length, slice_index_or};
ghost use Rattle.core_1401.specs.Address.{addresses};
ghost use Rattle.core_1401.specs.Storage.{cell_at};
ghost use Rattle.devices_1401.specs.Carriage.{controlled};
ghost use Rattle.devices_1401.specs.Devices.{is_full};
ghost use Rattle.cpu_1401.specs.CardsAndPrinter.{after_cards, after_control, after_write, after_work, has_d};
ghost use Rattle.cpu_1401.specs.CardsAndPrinter.{first_io_stop};
ghost use Rattle.cpu_1401.specs.CardsAndPrinter.{beyond_print_area, line_alone};
ghost use Rattle.fields_1401.specs.Places.{marks_of};
ghost use Rattle.cpu_1401.specs.CardsAndPrinter.{with_chars_from, with_line, with_punch, with_read};

use crate::areas::{BEHIND_PRINT_AREA, READ_AREA};
use crate::instruction::Instruction;
use crate::io_request::{CardWork, IoRequest, card_of};
use crate::machine::Machine;
use bcd_1401::Char;
use core_1401::{Core, LEAST_SIZE};
use devices_1401::{ControlFault, MOST_HELD};
use machine_tables::Stop;

/// The code of the lozenge, which asks for word marks to be printed.
const LOZENGE: u8 = 60;

impl Machine {
    /// Writes the print area, reads a card and punches one, as far as the operation does. The B register is then the
    /// place after the area of the last, unless there is an address to branch to.
    pub(crate) fn use_cards(&mut self, this: Instruction, work: CardWork) -> Option<Stop>
        requires a { this.a < addresses }
        requires next { this.next < addresses }
        ensures stop { result ≡ (after_work work this self.old).stop }
        ensures state { self.new ≡ (after_work work this self.old).state }
        ensures size { length self.new.storage ≡ length self.old.storage }
    {
        let request = IoRequest::of(&self.core, work);
        self.carry_cards(this, &request, work.beyond_last())
    }

    /// Writes a line: the characters of the print area, or its word marks if the d-character is the lozenge.
    pub(crate) fn write_line(&mut self, this: Instruction) -> Option<Stop>
        requires a { this.a < addresses }
        requires next { this.next < addresses }
        ensures stop { result ≡ (after_write this self.old).stop }
        ensures state { self.new ≡ (after_write this self.old).state }
        ensures size { length self.new.storage ≡ length self.old.storage }
    {
        let d = this.d;
        if !has_d(this.len) {
            return self.write_alone(this, false);
        }
        if d.code() != LOZENGE {
            return Some(Stop::DChar);
        }
        self.write_alone(this, true)
    }

    /// Writes a line and does nothing else: the word marks of the print area, or its characters.
    fn write_alone(&mut self, this: Instruction, marks: bool) -> Option<Stop>
        requires a { this.a < addresses }
        requires next { this.next < addresses }
        ensures stop { let request = line_alone marks self.old.storage in
            result ≡ (after_cards request beyond_print_area this self.old).stop }
        ensures state { let request = line_alone marks self.old.storage in
            self.new ≡ (after_cards request beyond_print_area this self.old).state }
        ensures size { length self.new.storage ≡ length self.old.storage }
    {
        let request = IoRequest::to_write(&self.core, marks);
        self.carry_cards(this, &request, BEHIND_PRINT_AREA)
    }

    /// Does what is asked for of the card reader, the punch and the printer, or says what hinders it. Then it branches
    /// if there is an address, and else leaves this in the B register.
    fn carry_cards(&mut self, this: Instruction, request: &IoRequest, b: u16) -> Option<Stop>
        requires a { this.a < addresses }
        requires next { this.next < addresses }
        requires b { b < addresses }
        ensures stop { result ≡ (after_cards request.now b this self.old).stop }
        ensures state { self.new ≡ (after_cards request.now b this self.old).state }
        ensures size { length self.new.storage ≡ length self.old.storage }
    {
        if let Some(why) = self.first_io_stop(request) {
            return Some(why);
        }
        self.write(request);
        self.read(request);
        self.punch(request);
        if this.len >= 4 {
            self.branch_if(true, b, this);
        } else {
            self.i = this.next;
            self.b = b;
        }
        None
    }

    /// Spaces or skips the carriage, now or after the next print, as the d-character asks.
    pub(crate) fn control_carriage(&mut self, this: Instruction) -> Option<Stop>
        requires a { this.a < addresses }
        requires next { this.next < addresses }
        ensures stop { result ≡ (after_control this self.old (controlled self.old.devices.carriage this.d)).stop }
        ensures state { self.new ≡ (after_control this self.old (controlled self.old.devices.carriage this.d)).state }
        ensures size { length self.new.storage ≡ length self.old.storage }
    {
        match self.devices.control(this.d) {
            Ok(()) => self.go_on(this.len == 5, this),
            Err(ControlFault::DChar) => Some(Stop::DChar),
            Err(ControlFault::Carriage) => Some(Stop::Carriage),
        }
    }

    /// What hinders what is asked for: full paper, then an empty hopper, then a full stacker.
    fn first_io_stop(&self, request: &IoRequest) -> Option<Stop>
        ensures { result ≡ first_io_stop request.now self.now.devices }
    {
        if request.line.is_some() && usize::from(self.devices.paper()) == MOST_HELD {
            return Some(Stop::Forms);
        }
        if request.reads && self.devices.hopper() == 0 {
            return Some(Stop::Reader);
        }
        if request.punches && usize::from(self.devices.stacker()) == MOST_HELD {
            return Some(Stop::Stacker);
        }
        None
    }

    /// Prints the line that is asked for, if one is. There is room for it.
    fn write(&mut self, request: &IoRequest)
        requires { IsSome request.now.line → is_full self.old.devices.paper ≡ false }
        ensures { self.new ≡ with_line request.now.line self.old }
    {
        if let Some(text) = request.line {
            if self.devices.print(text).is_err() {
                unreachable!();
            }
        }
    }

    /// Reads the first card of the hopper into the read area, if one is asked for and is there.
    fn read(&mut self, request: &IoRequest)
        ensures state { self.new ≡ with_read request.now.reads self.old }
        ensures size { length self.new.storage ≡ length self.old.storage }
    {
        if !request.reads {
            return;
        }
        let size = self.core.size();
        prove!(size >= LEAST_SIZE);
        if let Ok(card) = self.devices.read() {
            put_chars(&mut self.core, READ_AREA, &card.0);
        }
    }

    /// Punches the characters of the punch area, if that is asked for. There is room for the card.
    fn punch(&mut self, request: &IoRequest)
        requires { request.now.punches ≡ true → is_full self.old.devices.stacker ≡ false }
        ensures { self.new ≡ with_punch request.now.punches self.old }
    {
        if request.punches {
            let card = card_of(&self.core);
            let Ok(()) = self.devices.punch(card) else {
                unreachable!();
            };
        }
    }
}

/// Whether an instruction of the printer with this length has a d-character.
fn has_d(len: u16) -> bool
    ensures { result ≡ has_d len }
{
    len == 2 || len == 5
}

/// Puts characters in the places from one on upwards. The word marks there stay.
pub(crate) fn put_chars(core: &mut Core, at: u16, chars: &[Char])
    requires inside { at + length chars.now ≤ length core.old }
    requires fits { at + length chars.now < 2 ^ 16 }
    ensures value { core.new ≡ with_chars_from core.old at chars.now }
    ensures size { length core.new ≡ length core.old }

    // Each character is at its place. The places below and all word marks stay as they were.
    ensures each { (i : ℕ) → i < length chars.now → (cell_at core.new (at + i)).char ≡ slice_index_or chars.now i 0 }
    ensures below { (k : ℕ) → k < at → cell_at core.new k ≡ cell_at core.old k }
    ensures marks { (k : ℕ) → (cell_at core.new k).mark ≡ (cell_at core.old k).mark }
    ensures all_marks { marks_of core.new ≡ marks_of core.old }
{
    for (i, char) in chars.iter().enumerate() {
        core.put_char(at + i as u16, *char);
    }
}
