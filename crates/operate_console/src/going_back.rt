//! Lines that go back.
ghost use Rattle.std.specs.Prelude.{◌≡◌, true, false, Ok, IfErr, IfOk, is_some};
ghost use Rattle.operate_console.specs.Ends.{failure_after, failure_of, heard_so, is_read, is_unkept, is_write};
ghost use Rattle.operate_console.specs.Ends.{source_so};
ghost use Rattle.operate_console.specs.Line.{EarlierIs, PastDid, is_cut};
ghost use Rattle.operate_console.specs.Run.{faulted, read_on};

use crate::desk::{Desk, FileFault};
use crate::ends::Failure;
use crate::faults::{put_no_file, put_no_past};
use crate::listening::Listener;
use crate::manner::Manner;
use crate::notebook::Notebook;
use crate::page::Page;
use crate::setting::Setting;
use crate::terminal::Terminal;
use crate::waiting::Waiting;
use bytes_streams::Source;
use cpu_1401::Machine;
use operate_answers::{put_dropped, put_next, put_undone};
use operate_orders::{Past, Text};
use operate_program::Program;
use operate_sitting::{Cutter, Earlier, PastFault, Sitting};
use room_alone::Keeper;
use std::alloc::{AllocError, Global};
use std::mem::replace;

/// A sitting after a line, and its end, if that was it.
pub(crate) type After<K> = (Sitting<K>, Option<Failure>);

/// Why a line goes nowhere.
#[derive(Clone, Copy)]
enum NoPast {
    /// The sitting can't go back.
    Past(PastFault),
    /// The journal of a file isn't read.
    File(FileFault),
}

/// An earlier room of the sitting's own journal.
fn own(found: Result<Earlier, PastFault>) -> Result<Earlier, NoPast>
    ensures { IfOk result (λ earlier. found ≡ Ok earlier) }
{
    match found {
        Ok(earlier) => Ok(earlier),
        Err(fault) => Err(NoPast::Past(fault)),
    }
}

/// The room of the journal in a file.
#[tactic(auto, using(crate::proofs::LineLemmas::earlier_is))]
fn restored<K: Keeper + Drop, D: Desk>(
    alloc: Global,
    sitting: &Sitting<K>,
    name: &Text,
    desk: &mut D,
) -> Result<Earlier, NoPast>
    ensures { IfOk result (EarlierIs (Past.Restore name.now) sitting.now) }
{
    match desk.journal(name.as_slice()) {
        Ok(room) => own(Sitting::<K>::restored(alloc, room)),
        Err(fault) => Err(NoPast::File(fault)),
    }
}

/// The room that a line goes back to. A person may interrupt its commands, which are carried out again.
#[tactic(auto, using(crate::proofs::LineLemmas::earlier_is))]
fn earlier_of<K: Keeper + Drop, D: Desk, R: Source + Terminal>(
    alloc: Global,
    sitting: &Sitting<K>,
    past: &Past,
    desk: &mut D,
    listener: &mut Listener,
    reader: &mut R,
) -> Result<Earlier, NoPast>
    requires { heard_so listener.old.end listener.old.waiting.has_ended (R.has_failed reader.old)
        (R.left reader.old) ≡ true }
    ensures earlier { IfOk result (EarlierIs past.now sitting.now) }
    ensures good { heard_so listener.new.end listener.new.waiting.has_ended (R.has_failed reader.new)
        (R.left reader.new) ≡ true }
{
    match past {
        Past::Undo(lines) => own(sitting.undone(alloc, *lines, listener, reader)),
        Past::Back(count) => own(sitting.earlier(alloc, u64::from(*count), listener, reader)),
        Past::Restart => own(sitting.restarted(alloc, listener, reader)),
        Past::Restore(name) => restored(alloc, sitting, name, desk),
    }
}

/// Adds why a line goes nowhere, as its fault.
fn put_nowhere(notebook: &mut Notebook, past: &Past, fault: NoPast) -> Result<(), AllocError>
    ensures { notebook.new ≡ faulted notebook.old }
{
    match fault {
        NoPast::Past(fault) => put_no_past(notebook, fault),
        NoPast::File(fault) => put_no_file(notebook, name_in(past), fault),
    }
}

/// The file that a line names which goes back; empty if it names none.
fn name_in(past: &Past) -> &[u8] {
    match past {
        Past::Restore(name) => name.as_slice(),
        Past::Undo(_) | Past::Back(_) | Past::Restart => &[],
    }
}

/// Adds that the file of this name, if there is one, has the journal of the machine.
fn put_file(page: &mut Page, file: &[u8]) {
    if !file.is_empty() {
        page.text.put(file);
        page.text.put(b" has the journal up to here; ");
    }
}

/// What is gone after a line that went back.
#[derive(Clone, Copy)]
struct Gone {
    /// How many commands.
    commands: u64,
    /// How many cards in hand.
    cards: usize,
}

/// Adds where the machine is now, what its file has, and what is gone: after `undo` commands and cards, after `restore`
/// the cards in hand.
fn put_gone(
    alloc: Global,
    program: &Program,
    notebook: &mut Notebook,
    machine: &Machine,
    past: &Past,
    gone: Gone,
    file: &[u8],
) -> Result<(), AllocError>
    ensures { notebook.new ≡ notebook.old }
{
    notebook.why.clear();
    notebook
        .why
        .extend_from_slice(b"nothing has run since the machine went back".as_slice())?;
    notebook.pass_paper(machine);
    let page = &mut notebook.page;
    match past {
        Past::Undo(_) => {
            let file = if file.is_empty() { None } else { Some(file) };
            let Gone { commands, cards } = gone;
            put_undone(
                alloc,
                &mut page.text,
                program,
                machine,
                commands,
                cards as u64,
                file,
            );
        }
        Past::Back(_) | Past::Restart => {
            put_file(page, file);
            put_next(alloc, &mut page.text, program, machine);
        }
        Past::Restore(_) => {
            put_dropped(&mut page.text, gone.cards);
            put_file(page, file);
            put_next(alloc, &mut page.text, program, machine);
        }
    }
    page.written()
}

/// Goes back to an earlier room.
#[tactic(auto, using(crate::proofs::LineLemmas::went_back))]
fn go_back<K: Keeper + Drop, D: Desk + Cutter<K>>(
    setting: &Setting,
    notebook: &mut Notebook,
    sitting: Sitting<K>,
    past: &Past,
    earlier: Earlier,
    desk: &mut D,
) -> Result<After<K>, Failure>
    requires { EarlierIs past.now sitting earlier }
    ensures did { IfOk result (λ after.
        PastDid (is_cut (is_some after.1) notebook.new) past.now sitting after.0) }
    ensures noted { notebook.new ≡ notebook.old }
    ensures kept { IfOk result (λ after. after.0.account.failed ≡ is_unkept after.1) }
    ensures lost { IfErr result (λ why. why ≡ Failure.Unkept) }
    ensures read { is_read (failure_after result) ≡ false }
    ensures write { is_write (failure_after result) ≡ false }
{
    let Setting { alloc, program, .. } = *setting;
    let entries = sitting.journal().len();
    let hand = sitting.hand();
    let sitting = match sitting.take_over(earlier, desk) {
        Ok(sitting) => sitting,
        Err(_) => return Err(Failure::Unkept),
    };
    let gone = Gone {
        commands: entries.saturating_sub(sitting.journal().len()) as u64,
        cards: hand.saturating_sub(sitting.hand()),
    };
    match put_gone(
        alloc,
        program,
        notebook,
        sitting.machine(),
        past,
        gone,
        desk.kept_name(),
    ) {
        Ok(()) => Ok((sitting, None)),
        Err(_) => Ok((sitting, Some(Failure::Memory))),
    }
}

/// The room that a line goes back to, unless the sitting ends while it is made.
#[tactic(auto, using(crate::proofs::EndLemmas::heard_all))]
fn listened<K: Keeper + Drop, D: Desk, R: Source + Terminal>(
    alloc: Global,
    manner: &Manner,
    notebook: &mut Notebook,
    sitting: &Sitting<K>,
    past: &Past,
    desk: &mut D,
    reader: &mut R,
) -> Result<Result<Earlier, NoPast>, Failure>
    requires { source_so false notebook.old.has_ended (R.has_failed reader.old) (R.left reader.old) ≡ true }
    ensures earlier { IfOk result (λ found. IfOk found (EarlierIs past.now sitting.now)) }
    ensures noted { notebook.new ≡ read_on notebook.new.has_ended notebook.old }
    ensures good { source_so (is_read (failure_of result)) notebook.new.has_ended (R.has_failed reader.new)
        (R.left reader.new) ≡ true }
    ensures write { is_write (failure_of result) ≡ false }
    ensures kept { is_unkept (failure_of result) ≡ false }
{
    let waiting = replace(&mut notebook.waiting, Waiting::new(alloc));
    let mut listener = Listener::new(alloc, manner, waiting);
    let found = earlier_of(alloc, sitting, past, desk, &mut listener, reader);
    let Listener { waiting, end, .. } = listener;
    notebook.waiting = waiting;
    match end {
        None => Ok(found),
        Some(end) => Err(end),
    }
}

/// Does a line that goes back.
///
/// # Errors
///
/// `Unkept` if an entry wasn't kept, or what keeps the journal couldn't be cut. The sitting is lost then.
#[tactic(auto, using(crate::proofs::LineLemmas::no_past, crate::proofs::EndLemmas::source_unread))]
pub(crate) fn do_past<K: Keeper + Drop, D: Desk + Cutter<K>, R: Source + Terminal>(
    setting: &Setting,
    notebook: &mut Notebook,
    sitting: Sitting<K>,
    past: &Past,
    desk: &mut D,
    reader: &mut R,
) -> Result<After<K>, Failure>
    requires good { source_so false notebook.old.has_ended (R.has_failed reader.old) (R.left reader.old) ≡ true }
    requires kept { sitting.account.failed ≡ false }
    ensures did { IfOk result (λ after.
        PastDid (is_cut (is_some after.1) notebook.new) past.now sitting after.0) }
    ensures stops { notebook.new.stops ≡ notebook.old.stops }
    ensures good { source_so (is_read (failure_after result)) notebook.new.has_ended (R.has_failed reader.new)
        (R.left reader.new) ≡ true }
    ensures kept { IfOk result (λ after. after.0.account.failed ≡ is_unkept after.1) }
    ensures lost { IfErr result (λ why. why ≡ Failure.Unkept) }
    ensures write { is_write (failure_after result) ≡ false }
{
    let Setting { alloc, manner, .. } = *setting;
    let found = match listened(alloc, manner, notebook, &sitting, past, desk, reader) {
        Ok(found) => found,
        Err(end) => return Ok((sitting, Some(end))),
    };
    match found {
        Ok(earlier) => go_back(setting, notebook, sitting, past, earlier, desk),
        Err(fault) => match put_nowhere(notebook, past, fault) {
            Ok(()) => Ok((sitting, None)),
            Err(_) => Ok((sitting, Some(Failure::Memory))),
        },
    }
}
