//! What must hold where a break is come to, or after a step that uses a device.
ghost use Rattle.std.specs.Prelude.{◌≡◌, false};
ghost use Rattle.operate_answers.specs.Asked.{begins, has_text, in_line, is_printed};

use bcd_1401::Char;
use cpu_1401::Machine;
use devices_1401::{Devices, PrintLine};
use operate_orders::Text;
use operate_program::Comparison;
use operate_sitting::Condition;

/// What must hold where a break is come to, or after a step that uses a device.
#[derive(Clone, Copy)]
pub enum Asked {
    /// Nothing.
    Anything,
    /// A condition on a field.
    Compared(Comparison),
    /// The last printed line has a text.
    Printed(Text),
}

impl Condition for Asked {
    ghost use Rattle.operate_answers.specs.Asked.{is_asked};

    ghost is_so = { λ it s. is_asked it s };

    fn is_so(&self, machine: &Machine) -> bool {
        match self {
            Asked::Anything => true,
            Asked::Compared(comparison) => comparison.is_so(machine),
            Asked::Printed(text) => is_printed(machine.devices(), text.as_slice()),
        }
    }
}

/// Whether characters begin with a text.
fn begins(chars: &[Char], text: &[u8]) -> bool
    ensures { result ≡ begins text.now chars.now }
{
    let [byte, more_text @ ..] = text else {
        return true;
    };
    let [char, more @ ..] = chars else {
        return false;
    };
    char.graphic() == *byte && begins(more, more_text)
}

/// Whether characters have a text among them.
fn has_text(chars: &[Char], text: &[u8]) -> bool
    ensures { result ≡ has_text text.now chars.now }
{
    let [_, more @ ..] = chars else {
        return begins(chars, text);
    };
    begins(chars, text) || has_text(more, text)
}

/// Whether a line has a text, if there is one.
fn in_line(line: Option<PrintLine>, text: &[u8]) -> bool
    ensures { result ≡ in_line text.now line }
{
    match line {
        Some(line) => has_text(line.text.as_slice(), text),
        None => false,
    }
}

/// Whether the last line on the paper has a text.
fn is_printed(devices: &Devices, text: &[u8]) -> bool
    ensures { result ≡ is_printed text.now devices.now }
{
    let count = usize::from(devices.paper());
    in_line(devices.printed_line(count.saturating_sub(1)), text)
}
