//! The program that a run begins with: a source, or an image.
ghost use Rattle.std.specs.Prelude.{◌≡◌, true, false, Err, IfOk, IfErr, OnErr};
ghost use Rattle.core_1401.specs.Storage.{is_core_size};
ghost use Rattle.cpu_1401.specs.State.{power_on};
ghost use Rattle.machine_image.specs.Image.{IsInCore};
ghost use Rattle.machine_image.specs.Loading.{load_commands};
ghost use Rattle.program_run.specs.Program.{IsAssembled, IsImageMachine, IsNoImage, after_commands, is_meant_as_image};
ghost use Rattle.program_run.specs.Program.{with_image};
ghost use Rattle.program_arguments.specs.SourceSize.{is_refused, size_for};

use crate::fault::RunFault;
use autocoder_1401::{PackedImage, assemble_packed};
use autocoder_statements::Language;
use core_1401::CoreFault;
use cpu_1401::{Machine, carry_out};
use machine_commands::Command;
use machine_image::{LentImage, LoadCommands, Segment, lend_image};
use program_arguments::size_for;
use std::alloc::Global;

/// Whether a text is meant as that of an image.
#[tactic(auto, unfolding(crate::specs::Program::is_meant_as_image))]
pub fn is_image(text: &[u8]) -> bool
    ensures { result ≡ is_meant_as_image text.now }
{
    text.starts_with(b"IMAGE1 ") || text.starts_with(b"IMAGE2 ")
}

/// The program of a source in this language, in core storage of the size that is named; without one, of the size that
/// the source asks for, or else of 4,000 places.
///
/// # Errors
///
/// `Source` if it is none, or if memory is refused.
pub fn program_of(
    alloc: Global,
    language: Language,
    text: &[u8],
    size: Option<u16>,
) -> Result<PackedImage, RunFault>
    requires { is_refused size ≡ false }
    ensures source { IsAssembled language (size_for size language text.now) text.now result }
    ensures in_core { IfOk result IsInCore }
{
    match assemble_packed(alloc, language, text, size_for(size, language, text)) {
        Ok(image) => Ok(image),
        Err(fault) => Err(RunFault::Source(fault)),
    }
}

/// A machine of this size at power-on.
///
/// # Errors
///
/// `Memory` if there is no room for core storage.
pub(crate) fn machine_of(alloc: Global, size: u16) -> Result<Machine, RunFault>
    requires { is_core_size size ≡ true }
    ensures ok { IfOk result (λ machine. machine ≡ power_on size) }
    ensures err { OnErr result (result ≡ Err RunFault.Memory) }
{
    match Machine::power_on(alloc, size) {
        Ok(machine) => Ok(machine),
        Err(CoreFault::Memory) => Err(RunFault::Memory),
        Err(CoreFault::Size) => unreachable!(),
    }
}

/// Carries commands out on a machine, in order.
fn carry_each(machine: &mut Machine, commands: LoadCommands<'_>)
    ensures { machine.new ≡ after_commands machine.old commands.entry }
{
    for command in commands {
        let _ = carry_out(machine, &command);
    }
}

/// Deposits the segments of an image on a machine, in order, and sets the I register to its entry.
fn carry_image(machine: &mut Machine, image: &PackedImage)
    ensures { machine.new ≡ after_commands machine.old (load_commands image.now) }
{
    let mut rest = image.segments();
    while let Some((segment, beyond)) = rest.split_first() {
        let Segment { address, cells } = segment;
        let _ = carry_out(machine, &Command::Deposit { address, cells });
        rest = beyond;
    }
    let address = image.start();
    let _ = carry_out(machine, &Command::SetI { address });
}

/// A machine of an image's size at power-on that has the image's cells, and begins at its entry.
///
/// # Errors
///
/// `Memory` if there is no room for core storage.
pub fn loaded_machine(alloc: Global, image: &PackedImage) -> Result<Machine, RunFault>
    requires { IsInCore image.now }
    ensures ok { IfOk result (λ machine. machine ≡ with_image image.now) }
    ensures err { OnErr result (result ≡ Err RunFault.Memory) }
{
    match machine_of(alloc, image.size()) {
        Ok(mut machine) => {
            carry_image(&mut machine, image);
            Ok(machine)
        }
        Err(fault) => Err(fault),
    }
}

/// The same of an image that is lent.
fn lent_machine(alloc: Global, image: &LentImage<'_>) -> Result<Machine, RunFault>
    requires { IsInCore image.now }
    ensures ok { IfOk result (λ machine. machine ≡ with_image image.now) }
    ensures err { OnErr result (result ≡ Err RunFault.Memory) }
{
    match machine_of(alloc, image.size()) {
        Ok(mut machine) => {
            carry_each(&mut machine, LoadCommands::of_lent(image));
            Ok(machine)
        }
        Err(fault) => Err(fault),
    }
}

/// A machine at power-on that has the cells of the image of a text, and begins at its entry. Of the image one segment is
/// held at a time.
///
/// # Errors
///
/// `Image` if the text is no image's; `Memory` if there is no room for core storage.
#[tactic(auto, using(crate::proofs::BegunLemmas::in_core))]
pub fn image_machine(alloc: Global, text: &[u8]) -> Result<Machine, RunFault>
    ensures ok { IfOk result (IsImageMachine text.now) }
    ensures err { IfErr result (IsNoImage text.now) }
{
    match lend_image(text) {
        Ok(image) => lent_machine(alloc, &image),
        Err(fault) => Err(RunFault::Image(fault)),
    }
}
