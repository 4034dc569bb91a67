//! The faults of a line in its answer.
ghost use Rattle.std.specs.Prelude.{◌≡◌, true, false, is_err};
ghost use Rattle.operate_console.specs.Ends.{failure_of, is_read, is_unkept, is_unkept_fault, is_write};
ghost use Rattle.operate_console.specs.Line.{is_cut};
ghost use Rattle.operate_console.specs.Run.{faulted};

use crate::desk::{FileFault, put_file_fault};
use crate::ends::Failure;
use crate::notebook::Notebook;
use cpu_1401::Refusal;
use operate_answers::{LookFault, put_look_fault, put_order_fault};
use operate_orders::OrderFault;
use operate_program::{ActFault, PlaceFault, Program, put_act_fault, put_place_fault};
use operate_sitting::PastFault;
use room_alone::RoomFault;
use std::alloc::{AllocError, Global};

/// The line says nothing.
pub(crate) fn put_no_order(notebook: &mut Notebook, fault: &OrderFault) -> Result<(), AllocError>
    ensures { notebook.new ≡ faulted notebook.old }
{
    let from = notebook.begin_fault()?;
    put_order_fault(&mut notebook.page.text, fault);
    notebook.end_fault(from)
}

/// An act stands for no commands.
pub(crate) fn put_no_act(
    alloc: Global,
    notebook: &mut Notebook,
    program: &Program,
    fault: &ActFault,
) -> Result<(), AllocError>
    ensures { notebook.new ≡ faulted notebook.old }
{
    let from = notebook.begin_fault()?;
    put_act_fault(alloc, &mut notebook.page.text, program, fault);
    notebook.end_fault(from)
}

/// A place means no address.
pub(crate) fn put_no_place(
    alloc: Global,
    notebook: &mut Notebook,
    program: &Program,
    fault: &PlaceFault,
) -> Result<(), AllocError>
    ensures { notebook.new ≡ faulted notebook.old }
{
    let from = notebook.begin_fault()?;
    put_place_fault(alloc, &mut notebook.page.text, program, fault);
    notebook.end_fault(from)
}

/// Nothing can be shown.
pub(crate) fn put_no_look(
    alloc: Global,
    notebook: &mut Notebook,
    program: &Program,
    fault: &LookFault,
) -> Result<(), AllocError>
    ensures { notebook.new ≡ faulted notebook.old }
{
    let from = notebook.begin_fault()?;
    put_look_fault(alloc, &mut notebook.page.text, program, fault);
    notebook.end_fault(from)
}

/// A file can't be used.
pub(crate) fn put_no_file(
    notebook: &mut Notebook,
    name: &[u8],
    fault: FileFault,
) -> Result<(), AllocError>
    ensures { notebook.new ≡ faulted notebook.old }
{
    let from = notebook.begin_fault()?;
    put_file_fault(&mut notebook.page.text, name, fault);
    notebook.end_fault(from)
}

/// Fewer lines can be taken back than are to be.
fn put_undoable(notebook: &mut Notebook, lines: usize) -> Result<(), AllocError>
    ensures { notebook.new ≡ faulted notebook.old }
{
    let from = notebook.begin_fault()?;
    let text = &mut notebook.page.text;
    match lines {
        0 => text.put(b"no line has recorded anything by now"),
        1 => text.put(b"only one line has recorded anything"),
        lines => {
            text.put(b"only ");
            text.put_number(1, lines as u64);
            text.put(b" lines have recorded anything");
        }
    }
    notebook.end_fault(from)
}

/// The machine can't go back.
pub(crate) fn put_no_past(notebook: &mut Notebook, fault: PastFault) -> Result<(), AllocError>
    ensures { notebook.new ≡ faulted notebook.old }
{
    match fault {
        PastFault::Memory => notebook.put_fault(
            b"there is no memory for the earlier machine".as_slice(),
        ),
        PastFault::NothingToUndo { lines } => put_undoable(notebook, lines),
        PastFault::Interrupted => notebook.put_fault(
            b"interrupted: the machine is where it was".as_slice(),
        ),
        PastFault::TooFew => notebook.put_fault(b"fewer instructions were carried out".as_slice()),
    }
}

/// The machine refused the last command of a line. The journal has it with that answer.
pub(crate) fn put_refusal(notebook: &mut Notebook, refusal: Refusal) -> Result<(), AllocError>
    ensures { notebook.new ≡ faulted notebook.old }
{
    match refusal {
        Refusal::Hopper => notebook.put_fault(
            b"refused: the hopper is full, it has 500 cards".as_slice(),
        ),
        Refusal::Reader => notebook.put_fault(
            b"refused: the load key needs a card in the hopper".as_slice(),
        ),
        Refusal::Address | Refusal::Empty | Refusal::Limit | Refusal::Count => {
            notebook.put_fault(b"the machine refused it".as_slice())
        }
    }
}

/// The room takes no command.
///
/// # Errors
///
/// `Unkept` if an entry isn't kept: the sitting is over. `Memory` if there is none for the text.
pub(crate) fn put_refused(notebook: &mut Notebook, fault: RoomFault) -> Result<(), Failure>
    ensures cut { is_cut (is_err result) notebook.new ≡ true }
    ensures stops { notebook.new.stops ≡ notebook.old.stops }
    ensures ended { notebook.new.has_ended ≡ notebook.old.has_ended }
    ensures unkept { is_unkept (failure_of result) ≡ is_unkept_fault fault }
    ensures read { is_read (failure_of result) ≡ false }
    ensures write { is_write (failure_of result) ≡ false }
{
    match fault {
        RoomFault::Unkept => Err(Failure::Unkept),
        RoomFault::JournalFull => match notebook.put_fault(
            b"the journal is full: it has 100000 commands".as_slice(),
        ) {
            Ok(()) => Ok(()),
            Err(_) => Err(Failure::Memory),
        },
        RoomFault::Memory | RoomFault::NoReading => match notebook.put_fault(
            b"there is no memory for another command".as_slice(),
        ) {
            Ok(()) => Ok(()),
            Err(_) => Err(Failure::Memory),
        },
    }
}
