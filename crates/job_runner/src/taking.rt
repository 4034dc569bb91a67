//! Emptying paper and stacker.
ghost use Rattle.std.specs.Prelude.{◌≡◌, ◌≢◌, ◌++◌, [], IsTrue, Err, IfErr, OnOk, OnErr};
ghost use Rattle.cpu_1401.specs.CardsAndPrinter.{with_devices};
ghost use Rattle.job_runner.specs.Unattended.{IsBeginning, emptied};

use crate::fault::JobFault;
use crate::output::Output;
use cpu_1401::Machine;

/// Moves all printed lines to the output.
///
/// # Errors
///
/// `Write` or `Memory` if one isn't received. Those before it are.
fn take_lines<W: Output>(machine: &mut Machine, output: &mut W) -> Result<(), JobFault>
    ensures lines { OnOk result (W.lines output.new ≡ W.lines output.old ++ machine.old.devices.paper) }
    ensures part { OnErr result (IsBeginning (W.lines output.new) (W.lines output.old ++ machine.old.devices.paper)) }
    ensures state { OnOk result (machine.new ≡ with_devices (record machine.old.devices { paper = [] }) machine.old) }
    ensures fault { IfErr result (λ why. why ≢ JobFault.Read) }
    ensures good { result ≢ Err JobFault.Write → W.has_failed output.new ≡ W.has_failed output.old }
    ensures failed { result ≡ Err JobFault.Write → IsTrue (W.has_failed output.new) }
    ensures cards { W.cards output.new ≡ W.cards output.old }
{
    while let Some(line) = machine.take_line() {
        output.put_line(&line)?;
    }
    Ok(())
}

/// Moves all punched cards to the output.
///
/// # Errors
///
/// `Write` or `Memory` if one isn't received. Those before it are.
fn take_cards<W: Output>(machine: &mut Machine, output: &mut W) -> Result<(), JobFault>
    ensures cards { OnOk result (W.cards output.new ≡ W.cards output.old ++ machine.old.devices.stacker) }
    ensures part { OnErr result (IsBeginning (W.cards output.new) (W.cards output.old ++ machine.old.devices.stacker)) }
    ensures state { OnOk result (machine.new ≡ with_devices (record machine.old.devices { stacker = [] }) machine.old) }
    ensures fault { IfErr result (λ why. why ≢ JobFault.Read) }
    ensures good { result ≢ Err JobFault.Write → W.has_failed output.new ≡ W.has_failed output.old }
    ensures failed { result ≡ Err JobFault.Write → IsTrue (W.has_failed output.new) }
    ensures lines { W.lines output.new ≡ W.lines output.old }
{
    while let Some(card) = machine.take_card() {
        output.put_card(&card)?;
    }
    Ok(())
}

/// Moves all printed lines and punched cards to the output.
///
/// # Errors
///
/// `Write` or `Memory` if one isn't received. Those before it are.
pub(crate) fn take_all<W: Output>(machine: &mut Machine, output: &mut W) -> Result<(), JobFault>
    ensures lines { OnOk result (W.lines output.new ≡ W.lines output.old ++ machine.old.devices.paper) }
    ensures cards { OnOk result (W.cards output.new ≡ W.cards output.old ++ machine.old.devices.stacker) }
    ensures state { OnOk result (machine.new ≡ emptied machine.old) }
    ensures fault { IfErr result (λ why. why ≢ JobFault.Read) }
    ensures good { result ≢ Err JobFault.Write → W.has_failed output.new ≡ W.has_failed output.old }
    ensures failed { result ≡ Err JobFault.Write → IsTrue (W.has_failed output.new) }
    ensures part_lines { OnErr result
        (IsBeginning (W.lines output.new) (W.lines output.old ++ machine.old.devices.paper)) }
    ensures part_cards { OnErr result
        (IsBeginning (W.cards output.new) (W.cards output.old ++ machine.old.devices.stacker)) }
{
    take_lines(machine, output)?;
    take_cards(machine, output)
}
