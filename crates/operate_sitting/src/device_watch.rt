//! What a step does to the reader, the punch and the printer.
ghost use Rattle.std.specs.Prelude.{◌≡◌, false};
ghost use Rattle.operate_sitting.specs.DeviceWatch.{held_by};

use crate::breaks::Condition;
use crate::search::Test;
use cpu_1401::Machine;
use devices_1401::Devices;

/// A device that a step may use.
#[derive(Clone, Copy)]
pub enum Device {
    /// The reader: a card leaves the hopper.
    Reader,
    /// The punch: a card comes into the stacker.
    Punch,
    /// The printer: a line comes onto the paper.
    Printer,
}

/// A watch on a device: it is met by a step that reads a card, punches one or prints a line, if the condition holds
/// after it.
#[derive(Clone, Copy)]
pub struct DeviceWatch<C: Condition> {
    /// Which device.
    pub device: Device,
    /// What must hold of the machine after the step.
    pub condition: C,
    /// How many cards or lines it held after the last step.
    pub held: u16,
    /// Whether the last step met it.
    pub is_met: bool,
}

impl<C: Condition> DeviceWatch<C> {
    /// A watch on a device.
    pub fn new(device: Device, condition: C) -> DeviceWatch<C>
        ensures { result ≡ record { device = device; condition = condition; held = 0; is_met = false } }
    {
        DeviceWatch {
            device,
            condition,
            held: 0,
            is_met: false,
        }
    }
}

/// How many cards or printed lines a device holds.
fn held_by(device: Device, devices: &Devices) -> u16
    ensures { result ≡ held_by device devices.now }
{
    match device {
        Device::Reader => devices.hopper(),
        Device::Punch => devices.stacker(),
        Device::Printer => devices.paper(),
    }
}

impl<C: Condition> Test for DeviceWatch<C> {
    ghost use Rattle.std.specs.Prelude.{◌==◌, ◌&&◌, false, not};
    ghost use Rattle.operate_sitting.specs.DeviceWatch.{held_by};

    ghost begun = { λ it s. record it { held = held_by it.device s.devices; is_met = false } };

    ghost seen = { λ it s. let held = held_by it.device s.devices in
        record it { held = held; is_met = not (held == it.held) && C.is_so it.condition s } };

    ghost is_met = { λ it. it.is_met };

    fn begin(&mut self, machine: &Machine) {
        self.held = held_by(self.device, machine.devices());
        self.is_met = false;
    }

    fn see(&mut self, machine: &Machine) -> bool {
        let held = held_by(self.device, machine.devices());
        self.is_met = held != self.held && self.condition.is_so(machine);
        self.held = held;
        self.is_met
    }
}
