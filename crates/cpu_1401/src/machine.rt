//! The machine: core storage, registers, indicators, sense switches, and its devices.
ghost use Rattle.std.specs.Prelude.{◌≡◌, ◌<◌, ◌↔◌, false, length, IfOk};
ghost use Rattle.core_1401.specs.Address.{addresses};
ghost use Rattle.core_1401.specs.Storage.{is_core_size, with_char};
ghost use Rattle.cpu_1401.specs.State.{IsInRange, fitted_with, power_on, regs_of, with_cell, with_switch};
ghost use Rattle.devices_1401.specs.Movement.{pending_of};

use crate::decode_cache::DecodeCache;
use crate::fitted_cache::FittedCache;
use bcd_1401::{Cell, Char};
use core_1401::{Core, CoreFault};
use devices_1401::{Devices, Movement};
use machine_tables::{Features, Regs};
use std::alloc::Global;
use std::marker::Model;

/// The machine. Contracts see it as its state: plain data, with storage as the list of its cells by address.
#[derive(Drop)]
pub struct Machine {
    pub(crate) core: Core,
    pub(crate) cache: DecodeCache,
    // The I register is between the others: beside each other they would be computed as one pair, in more
    // instructions.
    pub(crate) a: u16,
    pub(crate) i: u16,
    pub(crate) b: u16,
    pub(crate) unequal: bool,
    pub(crate) low: bool,
    pub(crate) high: bool,
    pub(crate) overflow: bool,
    pub(crate) switches: [bool; 7],
    pub(crate) devices: Devices,
    pub(crate) fitted: FittedCache,
    /// The d-character of the last branch by a cell. Without the lengths nothing asks for it, and contracts see a blank.
    pub(crate) chained: Char,
}

impl Model for Machine {
    ghost use Rattle.std.specs.Prelude.{◌<◌, ◌≤◌, length, if◌then◌else◌};
    ghost use Rattle.core_1401.specs.Address.{addresses};
    ghost use Rattle.cpu_1401.specs.DecodeCache.{IsCurrent};
    ghost use Rattle.cpu_1401.specs.State.{State};
    ghost use Rattle.fields_1401.specs.Places.{marks_of};

    ghost Value = { State };

    ghost view = { λ m. record {
      storage = m.core;
      i = m.i;
      a = m.a;
      b = m.b;
      unequal = m.unequal;
      low = m.low;
      high = m.high;
      overflow = m.overflow;
      switches = m.switches;
      devices = m.devices;
      features = m.fitted;
      chained = if m.fitted.lengths then m.chained else 0;
    } };

    ghost invariant = { λ m.
        (m.i < addresses) × (m.a < addresses) × (m.b < addresses) × (m.cache.size ≤ length m.core)
        × IsCurrent m.cache.entries (marks_of m.core) };
}

impl Machine {
    /// The machine as it is at power-on, with core storage of this size.
    ///
    /// # Errors
    ///
    /// `Size` if no core storage of that size is made, else `Memory` if there is no room for it.
    pub fn power_on(alloc: Global, size: u16) -> Result<Machine, CoreFault>
        ensures ok { IfOk result (λ machine. machine ≡ power_on size) }
        ensures size { (result ≡ Err CoreFault.Size) ↔ (is_core_size size ≡ false) }
    {
        let core = Core::power_on(alloc, size)?;
        let Ok(devices) = Devices::power_on(alloc) else {
            return Err(CoreFault::Memory);
        };
        let Ok(cache) = DecodeCache::none(alloc, size) else {
            return Err(CoreFault::Memory);
        };
        let Ok(fitted) = FittedCache::none(alloc) else {
            return Err(CoreFault::Memory);
        };
        Ok(Machine {
            core,
            cache,
            i: 0,
            a: 0,
            b: 0,
            unequal: false,
            low: false,
            high: false,
            overflow: false,
            switches: [false; 7],
            devices,
            fitted,
            chained: Char::BLANK,
        })
    }

    /// Fits the machine with these features, and takes all others out. It takes no memory.
    pub fn fit(&mut self, features: Features)
        ensures { self.new ≡ fitted_with features self.old }
    {
        if !self.fitted.features().lengths {
            self.chained = Char::BLANK;
        }
        self.fitted.fit(features);
    }

    /// What the machine is fitted with.
    pub fn features(&self) -> Features
        ensures { result ≡ self.now.features }
    {
        self.fitted.features()
    }

    /// Core storage.
    pub fn core(&self) -> &Core
        ensures { result.now ≡ self.now.storage }
    {
        &self.core
    }

    /// The card reader, the punch and the printer.
    pub fn devices(&self) -> &Devices
        ensures { result.now ≡ self.now.devices }
    {
        &self.devices
    }

    /// The registers and indicators, and how full the devices are.
    pub fn regs(&self) -> Regs
        ensures value { result ≡ regs_of self.now }
        ensures range { IsInRange result }
    {
        Regs {
            i: self.i,
            a: self.a,
            b: self.b,
            unequal: self.unequal,
            low: self.low,
            high: self.high,
            overflow: self.overflow,
            switches: self.switches,
            hopper: self.devices.hopper(),
            stacker: self.devices.stacker(),
            paper: self.devices.paper(),
            form: self.devices.form(),
            line: self.devices.line(),
        }
    }

    /// The movement of the carriage that waits for the next print; `None` if none does, and the next print spaces one
    /// line.
    pub fn pending_movement(&self) -> Option<Movement>
        ensures { pending_of result ≡ self.now.devices.carriage.pending }
    {
        self.devices.pending_movement()
    }

    /// Sets the I register to a place, from which the next instruction is taken.
    pub fn set_i(&mut self, at: u16)
        requires { at < length self.old.storage }
        ensures { self.new ≡ record self.old { i = at } }
    {
        prove!(at < self.core.size());
        self.i = at;
    }

    /// Sets the registers to addresses.
    pub fn set_registers(&mut self, i: u16, a: u16, b: u16)
        requires i { i < addresses }
        requires a { a < addresses }
        requires b { b < addresses }
        ensures { self.new ≡ record self.old { i = i; a = a; b = b } }
    {
        self.i = i;
        self.a = a;
        self.b = b;
    }

    /// Puts a cell at a place, with its word mark or without one.
    #[tactic(auto, using(crate::proofs::StorageLemmas::cell_put))]
    pub fn put(&mut self, at: u16, cell: Cell)
        requires { at < length self.old.storage }
        ensures value { self.new ≡ with_cell self.old at cell }
        ensures size { length self.new.storage ≡ length self.old.storage }
    {
        prove!(at < self.core.size());
        self.cache.forget_at(at);
        self.core.put_char(at, cell.char);
        self.core.put_mark(at, cell.mark);
    }

    /// Puts a character at a place. The word mark there stays.
    pub fn put_char(&mut self, at: u16, char: Char)
        requires { at < length self.old.storage }
        ensures value { self.new ≡ record self.old { storage = with_char self.old.storage at char } }
        ensures size { length self.new.storage ≡ length self.old.storage }
    {
        self.core.put_char(at, char);
    }

    /// Turns a sense switch on or off: 0 is A, 6 is G.
    pub fn switch(&mut self, n: u8, on: bool)
        requires { n < 7 }
        ensures { self.new ≡ with_switch self.old n on }
    {
        self.switches[usize::from(n)] = on;
    }
}
