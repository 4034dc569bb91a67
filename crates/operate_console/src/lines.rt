//! What a line does.
ghost use Rattle.std.specs.Prelude.{◌≡◌, true, false, IfErr, IfOk, is_some};
ghost use Rattle.operate_console.specs.Ends.{failure_after, is_read, is_unkept, is_write, source_so};
ghost use Rattle.operate_console.specs.Line.{ActDid, LineDid, OrderDid};
ghost use Rattle.operate_console.specs.Run.{at_console};

use crate::acting::do_act;
use crate::desk::Desk;
use crate::ends::Failure;
use crate::faults::put_no_order;
use crate::going_back::{After, do_past};
use crate::notebook::Notebook;
use crate::noting::{do_look, do_note};
use crate::setting::Setting;
use crate::terminal::Terminal;
use bytes_streams::{Sink, Source};
use operate_orders::{Act, Order, OrderFault};
use operate_sitting::{Cutter, Sitting};
use room_alone::Keeper;

/// A line that acts.
#[tactic(auto, using(crate::proofs::EndLemmas::source_unread))]
fn act<K: Keeper + Drop, D: Desk, R: Source + Terminal, W: Sink>(
    setting: &Setting,
    notebook: &mut Notebook,
    sitting: Sitting<K>,
    act: &Act,
    desk: &mut D,
    reader: &mut R,
    writer: &mut W,
) -> After<K>
    requires good { source_so false notebook.old.has_ended (R.has_failed reader.old) (R.left reader.old) ≡ true }
    requires sink { W.has_failed writer.old ≡ false }
    requires kept { sitting.account.failed ≡ false }
    ensures did { ActDid setting.now.program.now setting.now.manner.now.limit (is_some result.1)
        notebook.new.is_faulted act.now (at_console sitting notebook.old) (at_console result.0 notebook.new) }
    ensures good { source_so (is_read result.1) notebook.new.has_ended (R.has_failed reader.new)
        (R.left reader.new) ≡ true }
    ensures sink { W.has_failed writer.new ≡ is_write result.1 }
    ensures kept { result.0.account.failed ≡ is_unkept result.1 }
{
    let mut sitting = sitting;
    let done = do_act(setting, notebook, &mut sitting, act, desk, reader, writer);
    match done {
        Ok(()) => (sitting, None),
        Err(end) => (sitting, Some(end)),
    }
}

/// Does what a line orders.
///
/// # Errors
///
/// As those of `do_line`.
#[tactic(auto, using(crate::proofs::LineLemmas::left, crate::proofs::LineLemmas::past_of_line, crate::proofs::LineLemmas::note_of_line, crate::proofs::EndLemmas::source_unread))]
fn do_order<K: Keeper + Drop, D: Desk + Cutter<K>, R: Source + Terminal, W: Sink>(
    setting: &Setting,
    notebook: &mut Notebook,
    sitting: Sitting<K>,
    order: &Order,
    desk: &mut D,
    reader: &mut R,
    writer: &mut W,
) -> Result<After<K>, Failure>
    requires good { source_so false notebook.old.has_ended (R.has_failed reader.old) (R.left reader.old) ≡ true }
    requires sink { W.has_failed writer.old ≡ false }
    requires kept { sitting.account.failed ≡ false }
    requires fault { notebook.old.is_faulted ≡ false }
    ensures did { IfOk result (λ after. OrderDid setting.now.program.now setting.now.manner.now.limit
        (is_some after.1) notebook.new.is_faulted order.now
        (at_console sitting notebook.old) (at_console after.0 notebook.new)) }
    ensures good { source_so (is_read (failure_after result)) notebook.new.has_ended (R.has_failed reader.new)
        (R.left reader.new) ≡ true }
    ensures sink { W.has_failed writer.new ≡ is_write (failure_after result) }
    ensures kept { IfOk result (λ after. after.0.account.failed ≡ is_unkept after.1) }
    ensures lost { IfErr result (λ why. why ≡ Failure.Unkept) }
{
    let Setting { alloc, program, .. } = *setting;
    match order {
        Order::Nothing | Order::Quit => Ok((sitting, None)),
        Order::Look(look) => {
            let done = do_look(
                alloc,
                program,
                notebook,
                sitting.room(),
                sitting.hand(),
                look,
            );
            match done {
                Ok(()) => Ok((sitting, None)),
                Err(_) => Ok((sitting, Some(Failure::Memory))),
            }
        }
        Order::Note(note) => {
            let done = do_note(
                alloc,
                program,
                notebook,
                sitting.room(),
                sitting.hand(),
                note,
                desk,
            );
            match done {
                Ok(()) => Ok((sitting, None)),
                Err(_) => Ok((sitting, Some(Failure::Memory))),
            }
        }
        Order::Act(order) => Ok(act(setting, notebook, sitting, order, desk, reader, writer)),
        Order::Past(past) => do_past(setting, notebook, sitting, past, desk, reader),
    }
}

/// Does a line: what it orders, or its fault.
///
/// # Errors
///
/// `Unkept` if what keeps the journal couldn't be cut. The sitting is lost then.
#[tactic(auto, using(crate::proofs::LineLemmas::left, crate::proofs::EndLemmas::source_unread))]
pub(crate) fn do_line<K: Keeper + Drop, D: Desk + Cutter<K>, R: Source + Terminal, W: Sink>(
    setting: &Setting,
    notebook: &mut Notebook,
    sitting: Sitting<K>,
    said: &Result<Order, OrderFault>,
    desk: &mut D,
    reader: &mut R,
    writer: &mut W,
) -> Result<After<K>, Failure>
    requires good { source_so false notebook.old.has_ended (R.has_failed reader.old) (R.left reader.old) ≡ true }
    requires sink { W.has_failed writer.old ≡ false }
    requires kept { sitting.account.failed ≡ false }
    requires fault { notebook.old.is_faulted ≡ false }
    ensures did { IfOk result (λ after. LineDid setting.now.program.now setting.now.manner.now.limit
        (is_some after.1) notebook.new.is_faulted said.now
        (at_console sitting notebook.old) (at_console after.0 notebook.new)) }
    ensures good { source_so (is_read (failure_after result)) notebook.new.has_ended (R.has_failed reader.new)
        (R.left reader.new) ≡ true }
    ensures sink { W.has_failed writer.new ≡ is_write (failure_after result) }
    ensures kept { IfOk result (λ after. after.0.account.failed ≡ is_unkept after.1) }
    ensures lost { IfErr result (λ why. why ≡ Failure.Unkept) }
{
    match said {
        Ok(order) => do_order(setting, notebook, sitting, order, desk, reader, writer),
        Err(fault) => match put_no_order(notebook, fault) {
            Ok(()) => Ok((sitting, None)),
            Err(_) => Ok((sitting, Some(Failure::Memory))),
        },
    }
}
