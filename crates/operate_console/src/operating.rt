//! Lines done one after the other.
ghost use Rattle.std.specs.Prelude.{◌≡◌, ◌||◌, true, false, None, IfOk, IfSome, is_none};
ghost use Rattle.operate_console.specs.Ends.{LastShown, SourceLeft, failure_in, failure_of, is_last_typed, is_read};
ghost use Rattle.operate_console.specs.Ends.{is_unkept, is_write, source_so};
ghost use Rattle.operate_console.specs.Line.{LinesDid, OperatedBy, is_quit};
ghost use Rattle.operate_console.specs.Run.{at_console, read_on};

use crate::beginning::Beginning;
use crate::desk::Desk;
use crate::ends::{Failure, OperateEnd, Operated};
use crate::lines::do_line;
use crate::manner::Manner;
use crate::notebook::Notebook;
use crate::setting::Setting;
use crate::terminal::Terminal;
use crate::typed::{Typed, read_line};
use bytes_streams::{Sink, Source};
use operate_answers::put_dropped;
use operate_orders::{Order, OrderFault, parse_order};
use operate_sitting::{Cutter, Sitting};
use room_alone::Keeper;
use std::alloc::{AllocError, Global};

/// The most lines that a sitting does.
const MOST_LINES: u32 = 16_777_216;

/// What is written before a line is read.
const PROMPT: &[u8] = b"1401> ";

/// Adds a line after a prompt, as a terminal shows it that is typed there.
fn put_echo(notebook: &mut Notebook, line: &[u8]) -> Result<(), AllocError>
    ensures { notebook.new ≡ notebook.old }
{
    notebook.page.put(PROMPT)?;
    notebook.page.put_line(line)
}

/// Has a line in the transcript, as if it had been typed after a prompt.
fn transcribe_line<D: Desk>(line: &[u8], desk: &mut D) {
    desk.transcribe(PROMPT);
    desk.transcribe(line);
    desk.transcribe(b"\n".as_slice());
}

/// Has a line of a file in the transcript, after the answers before it; or in the answer if it is echoed.
///
/// # Errors
///
/// `Write` if the answers can't be shown, `Memory` if there is none for them or for the line.
fn echo_of_file<D: Desk, W: Sink>(
    alloc: Global,
    manner: &Manner,
    notebook: &mut Notebook,
    line: &[u8],
    desk: &mut D,
    writer: &mut W,
) -> Result<(), Failure>
    requires { W.has_failed writer.old ≡ false }
    ensures noted { notebook.new ≡ notebook.old }
    ensures write { W.has_failed writer.new ≡ is_write (failure_of result) }
    ensures read { is_read (failure_of result) ≡ false }
    ensures kept { is_unkept (failure_of result) ≡ false }
{
    if manner.echo {
        return match put_echo(notebook, line) {
            Ok(()) => Ok(()),
            Err(_) => Err(Failure::Memory),
        };
    }
    match notebook.page.show(alloc, manner, desk, writer) {
        Ok(()) => {
            transcribe_line(line, desk);
            Ok(())
        }
        Err(end) => Err(end),
    }
}

/// The next line that was typed ahead, if there is one.
fn line_ahead(alloc: Global, notebook: &mut Notebook) -> Result<Option<Vec<u8>>, AllocError>
    ensures { notebook.new ≡ notebook.old }
{
    let Some(line) = notebook.waiting.take_typed(alloc)? else {
        return Ok(None);
    };
    put_echo(notebook, line.as_slice())?;
    Ok(Some(line))
}

/// Has a line that was read in the transcript; or in the answer if it is echoed, which it isn't at a terminal. The
/// answers before it were shown.
fn hear<D: Desk>(
    manner: &Manner,
    notebook: &mut Notebook,
    line: Vec<u8>,
    desk: &mut D,
) -> Result<Option<Vec<u8>>, AllocError>
    ensures noted { notebook.new ≡ notebook.old }
    ensures line { IfOk result (λ line. is_none line ≡ false) }
{
    if manner.prompts {
        desk.transcribe(line.as_slice());
        desk.transcribe(b"\n".as_slice());
        return Ok(Some(line));
    }
    if !manner.echo {
        transcribe_line(line.as_slice(), desk);
        return Ok(Some(line));
    }
    match put_echo(notebook, line.as_slice()) {
        Ok(()) => Ok(Some(line)),
        Err(fault) => Err(fault),
    }
}

/// What was read, as a line; none at the end of the input.
#[tactic(auto, using(crate::proofs::EndLemmas::noted_plain))]
fn line_typed<D: Desk>(
    alloc: Global,
    manner: &Manner,
    notebook: &mut Notebook,
    typed: Typed,
    desk: &mut D,
) -> Result<Option<Vec<u8>>, AllocError>
    ensures noted { notebook.new ≡ read_on (is_last_typed typed || notebook.old.has_ended) notebook.old }
    ensures end { IfOk result (λ line. is_none line ≡ true → is_last_typed typed ≡ true) }
{
    match typed {
        Typed::Line(line) => hear(manner, notebook, line, desk),
        Typed::Dropped => hear(manner, notebook, Vec::new(alloc), desk),
        Typed::Last(line) => {
            notebook.waiting.has_ended = true;
            if line.is_empty() {
                return Ok(None);
            }
            hear(manner, notebook, line, desk)
        }
    }
}

/// Reads a line, after a prompt if there are prompts; none at the end of the input.
///
/// # Errors
///
/// As those of `show` and `read_line`.
#[tactic(auto, using(crate::proofs::EndLemmas::source_good, crate::proofs::EndLemmas::source_unread, crate::proofs::EndLemmas::source_typed, crate::proofs::EndLemmas::source_failed, crate::proofs::EndLemmas::ended_typed, crate::proofs::EndLemmas::noted_typed, crate::proofs::EndLemmas::noted_on))]
fn typed_line<D: Desk, R: Source, W: Sink>(
    alloc: Global,
    manner: &Manner,
    notebook: &mut Notebook,
    desk: &mut D,
    reader: &mut R,
    writer: &mut W,
) -> Result<Option<Vec<u8>>, Failure>
    requires good { source_so false notebook.old.has_ended (R.has_failed reader.old) (R.left reader.old) ≡ true }
    requires sink { W.has_failed writer.old ≡ false }
    ensures noted { notebook.new ≡ read_on notebook.new.has_ended notebook.old }
    ensures good { source_so (is_read (failure_of result)) notebook.new.has_ended (R.has_failed reader.new)
        (R.left reader.new) ≡ true }
    ensures sink { W.has_failed writer.new ≡ is_write (failure_of result) }
    ensures kept { is_unkept (failure_of result) ≡ false }
    ensures end { IfOk result (λ line. is_none line ≡ true → notebook.new.has_ended ≡ true) }
{
    if notebook.waiting.has_ended {
        return Ok(None);
    }
    if manner.prompts {
        if notebook.page.put(PROMPT).is_err() {
            return Err(Failure::Memory);
        }
    }
    match notebook.page.show(alloc, manner, desk, writer) {
        Ok(()) => {}
        Err(end) => return Err(end),
    }
    match read_line(alloc, reader) {
        Ok(typed) => match line_typed(alloc, manner, notebook, typed, desk) {
            Ok(line) => Ok(line),
            Err(_) => Err(Failure::Memory),
        },
        Err(end) => Err(end),
    }
}

/// The next line: one of a file, or typed ahead, or else a line that is read; none at the end of the input.
///
/// # Errors
///
/// As those of `echo_of_file`, `show` and `read_line`.
#[tactic(auto, using(crate::proofs::EndLemmas::source_unread, crate::proofs::EndLemmas::noted_on))]
fn next_line<D: Desk, R: Source, W: Sink>(
    alloc: Global,
    manner: &Manner,
    notebook: &mut Notebook,
    desk: &mut D,
    reader: &mut R,
    writer: &mut W,
) -> Result<Option<Vec<u8>>, Failure>
    requires good { source_so false notebook.old.has_ended (R.has_failed reader.old) (R.left reader.old) ≡ true }
    requires sink { W.has_failed writer.old ≡ false }
    ensures noted { notebook.new ≡ read_on notebook.new.has_ended notebook.old }
    ensures good { source_so (is_read (failure_of result)) notebook.new.has_ended (R.has_failed reader.new)
        (R.left reader.new) ≡ true }
    ensures sink { W.has_failed writer.new ≡ is_write (failure_of result) }
    ensures kept { is_unkept (failure_of result) ≡ false }
    ensures end { IfOk result (λ line. is_none line ≡ true → notebook.new.has_ended ≡ true) }
{
    match notebook.waiting.take_of_files(alloc) {
        Ok(Some(line)) => {
            return match echo_of_file(alloc, manner, notebook, line.as_slice(), desk, writer) {
                Ok(()) => Ok(Some(line)),
                Err(end) => Err(end),
            };
        }
        Ok(None) => {}
        Err(_) => return Err(Failure::Memory),
    }
    match line_ahead(alloc, notebook) {
        Ok(Some(line)) => Ok(Some(line)),
        Ok(None) => typed_line(alloc, manner, notebook, desk, reader, writer),
        Err(_) => Err(Failure::Memory),
    }
}

/// Whether a line says `quit`.
fn is_quit(said: &Result<Order, OrderFault>) -> bool
    ensures { result ≡ is_quit said.now }
{
    match said {
        Ok(order) => match order {
            Order::Quit => true,
            Order::Nothing | Order::Look(_) | Order::Act(_) => false,
            Order::Past(_) | Order::Note(_) => false,
        },
        Err(_) => false,
    }
}

/// Does lines until one ends the sitting. The answer of the last line isn't written yet. The last part of the result is
/// how many of them had a fault.
#[tactic(auto, using(crate::proofs::LineLemmas::no_line, crate::proofs::LineLemmas::quit_said, crate::proofs::LineLemmas::input_ended, crate::proofs::LineLemmas::unread, crate::proofs::EndLemmas::source_good, crate::proofs::EndLemmas::source_ended, crate::proofs::EndLemmas::source_left, crate::proofs::EndLemmas::lost_so))]
fn do_lines<K: Keeper + Drop, D: Desk + Cutter<K>, R: Source + Terminal, W: Sink>(
    setting: &Setting,
    sitting: Sitting<K>,
    notebook: &mut Notebook,
    desk: &mut D,
    reader: &mut R,
    writer: &mut W,
) -> (Option<Sitting<K>>, OperateEnd, u32)
    requires good { source_so false notebook.old.has_ended (R.has_failed reader.old) (R.left reader.old) ≡ true }
    requires sink { W.has_failed writer.old ≡ false }
    requires kept { sitting.account.failed ≡ false }
    ensures lines { IfSome result.0 (λ after. LinesDid setting.now.program.now setting.now.manner.now.limit result.1
        (record { at = at_console sitting notebook.old; faults = 0 })
        (record { at = at_console after notebook.new; faults = result.2 })) }
    ensures source { SourceLeft result.1 (R.has_failed reader.new) (R.left reader.new) }
    ensures sink { W.has_failed writer.new ≡ is_write (failure_in result.1) }
    ensures kept { IfSome result.0 (λ after. after.account.failed ≡ is_unkept (failure_in result.1)) }
    ensures lost { result.0 ≡ None → is_unkept (failure_in result.1) ≡ true }
{
    let Setting { alloc, manner, .. } = *setting;
    let mut sitting = sitting;
    let mut faults = 0;
    for _line in 0..MOST_LINES {
        let line = match next_line(alloc, manner, notebook, desk, reader, writer) {
            Ok(Some(line)) => line,
            Ok(None) => return (Some(sitting), OperateEnd::EndOfInput, faults),
            Err(why) => return (Some(sitting), OperateEnd::Failed(why), faults),
        };
        let said = parse_order(line.as_slice());
        if is_quit(&said) {
            return (Some(sitting), OperateEnd::Quit, faults);
        }
        notebook.begin_line();
        match do_line(setting, notebook, sitting, &said, desk, reader, writer) {
            Ok(after) => {
                faults = notebook.faults_with(faults);
                let (now, end) = after;
                match end {
                    None => sitting = now,
                    Some(why) => return (Some(now), OperateEnd::Failed(why), faults),
                }
            }
            Err(why) => return (None, OperateEnd::Failed(why), notebook.faults_with(faults)),
        }
    }
    (Some(sitting), OperateEnd::Failed(Failure::Bound), faults)
}

/// Begins with the lines of a file, if there are some, and with a greeting.
fn begin(notebook: &mut Notebook, beginning: Beginning) -> Result<(), AllocError>
    ensures { notebook.new ≡ notebook.old }
{
    let Beginning { greeting, first } = beginning;
    notebook.page.put(greeting)?;
    match first {
        Some(script) => notebook.waiting.begin(script),
        None => Ok(()),
    }
}

/// Writes the last answer, and how many cards in hand are gone.
#[tactic(auto, using(crate::proofs::EndLemmas::as_it_ended, crate::proofs::EndLemmas::not_shown))]
fn put_last<D: Desk, W: Sink>(
    alloc: Global,
    manner: &Manner,
    notebook: &mut Notebook,
    end: OperateEnd,
    hand: usize,
    desk: &mut D,
    writer: &mut W,
) -> OperateEnd
    requires sink { W.has_failed writer.old ≡ false }
    requires write { is_write (failure_in end) ≡ false }
    requires kept { is_unkept (failure_in end) ≡ false }
    ensures end { LastShown end result }
    ensures noted { notebook.new ≡ notebook.old }
    ensures sink { W.has_failed writer.new ≡ is_write (failure_in result) }
    ensures kept { is_unkept (failure_in result) ≡ false }
{
    put_dropped(&mut notebook.page.text, hand);
    if notebook.page.written().is_err() {
        return OperateEnd::Failed(Failure::Memory);
    }
    match notebook.page.show(alloc, manner, desk, writer) {
        Ok(()) => end,
        Err(worse) => OperateEnd::Failed(worse),
    }
}

/// Writes the last answer, if the sitting didn't end because nothing can be written, or may be.
#[tactic(auto, using(crate::proofs::EndLemmas::as_it_ended))]
fn show_last<D: Desk, W: Sink>(
    alloc: Global,
    manner: &Manner,
    notebook: &mut Notebook,
    end: OperateEnd,
    hand: usize,
    desk: &mut D,
    writer: &mut W,
) -> OperateEnd
    requires { W.has_failed writer.old ≡ is_write (failure_in end) }
    ensures end { LastShown end result }
    ensures noted { notebook.new ≡ notebook.old }
    ensures sink { W.has_failed writer.new ≡ is_write (failure_in result) }
    ensures kept { is_unkept (failure_in result) ≡ is_unkept (failure_in end) }
{
    match end {
        OperateEnd::Failed(Failure::Write) => end,
        OperateEnd::Failed(Failure::Memory) => end,
        OperateEnd::Failed(Failure::Unkept) => end,
        OperateEnd::Failed(Failure::Read) => put_last(
            alloc, manner, notebook, end, hand, desk, writer,
        ),
        OperateEnd::Failed(Failure::Bound) => put_last(
            alloc, manner, notebook, end, hand, desk, writer,
        ),
        OperateEnd::Quit => put_last(alloc, manner, notebook, end, hand, desk, writer),
        OperateEnd::EndOfInput => put_last(alloc, manner, notebook, end, hand, desk, writer),
    }
}

/// Does the lines of a person until `quit`, the end of the input or a failure: after a greeting those of a file, then
/// those that are read. The journal of the sitting that is returned is that of the lines, one after the other: a
/// line stands for each command in it.
#[tactic(auto, using(crate::proofs::LineLemmas::operated, crate::proofs::LineLemmas::not_operated, crate::proofs::EndLemmas::source_begun, crate::proofs::EndLemmas::source_shown))]
pub fn operate<K: Keeper + Drop, D: Desk + Cutter<K>, R: Source + Terminal, W: Sink>(
    setting: &Setting,
    sitting: Sitting<K>,
    beginning: Beginning,
    desk: &mut D,
    reader: &mut R,
    writer: &mut W,
) -> Operated<K>
    ensures lines { IfSome result.sitting (OperatedBy setting.now.program.now setting.now.manner.now.limit sitting
        result.end result.faults) }

    // It ends by `quit` or the end of the input only if no read and no write has failed, and the journal has each entry.
    ensures source { SourceLeft result.end (R.has_failed reader.new) (R.left reader.new) }
    ensures sink { W.has_failed writer.new ≡ (W.has_failed writer.old || is_write (failure_in result.end)) }
    ensures kept { IfSome result.sitting (λ after. after.account.failed ≡ is_unkept (failure_in result.end)) }
    ensures lost { result.sitting ≡ None → is_unkept (failure_in result.end) ≡ true }
{
    let Setting { alloc, manner, .. } = *setting;
    let mut notebook = Notebook::new(alloc, sitting.machine());
    if sitting.has_failed() {
        return ended(Some(sitting), OperateEnd::Failed(Failure::Unkept), 0);
    }
    if writer.has_failed() {
        return ended(Some(sitting), OperateEnd::Failed(Failure::Write), 0);
    }
    if reader.has_failed() {
        return ended(Some(sitting), OperateEnd::Failed(Failure::Read), 0);
    }
    if begin(&mut notebook, beginning).is_err() {
        return ended(Some(sitting), OperateEnd::Failed(Failure::Memory), 0);
    }
    let (sitting, end, faults) = do_lines(setting, sitting, &mut notebook, desk, reader, writer);
    let hand = match &sitting {
        Some(sitting) => sitting.hand(),
        None => 0,
    };
    let end = show_last(alloc, manner, &mut notebook, end, hand, desk, writer);
    ended(sitting, end, faults)
}

/// A sitting that ended so.
fn ended<K: Keeper + Drop>(sitting: Option<Sitting<K>>, end: OperateEnd, faults: u32) -> Operated<K>
    ensures sitting { result.sitting ≡ sitting }
    ensures end { result.end ≡ end }
    ensures faults { result.faults ≡ faults }
{
    Operated {
        sitting,
        end,
        faults,
    }
}
