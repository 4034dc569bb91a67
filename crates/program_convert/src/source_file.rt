//! The subcommand `assemble`, from the source's file to what is written.
ghost use Rattle.std.specs.Prelude.{◌≡◌, false, true};
ghost use Rattle.core_1401.specs.Storage.{is_core_size};
ghost use Rattle.program_convert.specs.ReadyTables.{IsReady};
ghost use Rattle.program_arguments.specs.SourceSize.{is_refused};

use crate::assembling::{
    ReadyProduct, check_size, ready_product, source_deck, write_assembly, write_ready_product,
};
use crate::fault::AssembleFault;
use autocoder_1401::{
    AsmFault, AsmKind, FaultPages, explained_faults, fault_lines, warning_lines, warnings,
};
use autocoder_statements::Language;
use bcd_1401::{Graphics, Suggestion, in_ours, in_theirs, suggest_for_source};
use bytes_descriptors::{
    FileFault, WriteFault, begin_whole, end_whole, is_one_file, put_whole, read_whole,
};
use bytes_streams::ToWriter;
use machine_tables::Features;
use program_arguments::{Assembling, Product, Reported, is_refused, size_for};
use std::alloc::Global;
use std::io;
use std::rt::Files;

/// How many warnings are printed at a time.
const PAGE: usize = 1_000;

/// The bytes of a source's file.
///
/// # Errors
///
/// `Unread`, with the name as it was given; else `Memory`.
fn read_source(rt: &(impl Files + AllocGlobal), name: &str) -> Result<Vec<u8>, AssembleFault> {
    match read_whole(rt, name) {
        Ok(bytes) => Ok(bytes),
        Err(why) => Err(unread(rt.alloc(), name, why)),
    }
}

/// The fault of a source of this name that can't be read.
fn unread(alloc: Global, name: &str, why: FileFault) -> AssembleFault {
    match (why, String::from_str(alloc, name)) {
        (FileFault::Memory, _) | (_, Err(_)) => AssembleFault::Memory,
        (_, Ok(name)) => AssembleFault::Unread(name),
    }
}

/// Looks at two names, the second one of a file that is written, if there are both.
///
/// # Errors
///
/// `OneFile` if they lead to one file, or `Memory`.
fn check_pair<R: Files + AllocGlobal>(
    rt: &R,
    first: &str,
    second: &Option<String>,
) -> Result<(), AssembleFault> {
    let Some(second) = second else {
        return Ok(());
    };
    match is_one_file(rt, first, second.as_str()) {
        Ok(false) => Ok(()),
        Ok(true) => Err(one_file(rt.alloc(), first, second.as_str())),
        Err(_) => Err(AssembleFault::Memory),
    }
}

/// The fault of two names that lead to one file.
fn one_file(alloc: Global, first: &str, second: &str) -> AssembleFault {
    match (
        String::from_str(alloc, first),
        String::from_str(alloc, second),
    ) {
        (Ok(first), Ok(second)) => AssembleFault::OneFile(first, second),
        _ => AssembleFault::Memory,
    }
}

/// Looks at the names of the source and of the files that are written.
///
/// # Errors
///
/// `OneFile` if two of them lead to one file, or `Memory`.
fn check_names<R: Files + AllocGlobal>(rt: &R, asked: &Assembling) -> Result<(), AssembleFault> {
    match check_pair(rt, asked.file.as_str(), &asked.out) {
        Ok(()) => {}
        Err(fault) => return Err(fault),
    }
    match check_pair(rt, asked.file.as_str(), &asked.deck) {
        Ok(()) => {}
        Err(fault) => return Err(fault),
    }
    match &asked.out {
        Some(out) => check_pair(rt, out.as_str(), &asked.deck),
        None => Ok(()),
    }
}

/// The fault of a file of this name that isn't written.
fn unwritten(alloc: Global, name: &str, why: WriteFault) -> AssembleFault {
    match (why, String::from_str(alloc, name)) {
        (WriteFault::Memory, _) | (_, Err(_)) => AssembleFault::Memory,
        (WriteFault::Unwritten, Ok(name)) => AssembleFault::Unwritten(name),
    }
}

/// Writes what is ready of a source to the file of this name, whole or not at all, a page after the other; or to
/// standard output, if the name is its.
fn put_product(
    rt: &(impl Files + Print + AllocGlobal),
    name: &str,
    ready: ReadyProduct,
    source: &[u8],
) -> Result<(), WriteFault>
    requires { IsReady source.now ready }
{
    match begin_whole(rt, name) {
        Ok(file) => {
            let mut writer = ToWriter::new(file);
            let written = write_ready_product(ready, source, &mut writer);
            end_whole(rt, writer.into_inner(), written.is_ok())
        }
        Err(why) => Err(why),
    }
}

/// Writes the deck of a source to the file of this name, whole or not at all; or to standard output, if the name is its.
fn put_deck(
    rt: &(impl Files + Print + AllocGlobal),
    name: &str,
    asked: &Assembling,
    source: &[u8],
    size: u16,
) -> Result<(), AssembleFault>
    requires { is_core_size size ≡ true }
{
    let text = match source_deck(rt.alloc(), asked.language, source, size) {
        Ok(text) => in_theirs(asked.deck_graphics, text),
        Err(fault) => return Err(fault),
    };
    match put_whole(rt, name, text.as_slice()) {
        Ok(()) => Ok(()),
        Err(why) => Err(unwritten(rt.alloc(), name, why)),
    }
}

/// Writes what a source stands for to standard output, or to the file that is named.
fn write_product<R: Files + Print + AllocGlobal>(
    rt: &R,
    asked: &Assembling,
    source: &[u8],
    size: u16,
) -> Result<(), AssembleFault>
    requires { is_core_size size ≡ true }
{
    let alloc = rt.alloc();
    match &asked.out {
        Some(name) => match ready_product(alloc, asked.language, source, size, asked.product) {
            Ok(ready) => match put_product(rt, name.as_str(), ready, source) {
                Ok(()) => Ok(()),
                Err(why) => Err(unwritten(alloc, name.as_str(), why)),
            },
            Err(fault) => Err(fault),
        },
        None => {
            let mut writer = ToWriter::new(io::writer(rt));
            write_assembly(
                alloc,
                asked.language,
                source,
                size,
                asked.product,
                &mut writer,
            )
        }
    }
}

/// Writes the deck of a source, if one is asked for, and then what else is: not the image, if neither it nor a
/// file for it is named.
fn write_asked<R: Files + Print + AllocGlobal>(
    rt: &R,
    asked: &Assembling,
    source: &[u8],
    size: u16,
) -> Result<(), AssembleFault> {
    match check_size(size) {
        Ok(()) => {}
        Err(fault) => return Err(fault),
    }
    let Some(deck) = &asked.deck else {
        return write_product(rt, asked, source, size);
    };
    match put_deck(rt, deck.as_str(), asked, source, size) {
        Ok(()) => {}
        Err(fault) => return Err(fault),
    }
    if asked.product == Product::Image && asked.out.is_none() {
        return Ok(());
    }
    write_product(rt, asked, source, size)
}

/// The fault of a source of this name with what isn't in core on a line of its own, in place of that fault.
fn outside_told(
    alloc: Global,
    name: &str,
    language: Language,
    source: &[u8],
    size: u16,
    first: AsmFault,
) -> AssembleFault {
    match explained_faults(alloc, language, source, size) {
        Ok(found) if !found.is_empty() => {
            match fault_lines(alloc, name, language, source, size, &found) {
                Ok(lines) => AssembleFault::Faulty(lines),
                Err(_) => AssembleFault::Memory,
            }
        }
        Ok(_) => AssembleFault::Source(first),
        Err(_) => AssembleFault::Memory,
    }
}

/// Reports each fault of the lines of a source of this name on standard error, a page after the other, whether that
/// takes them or not. The last page is left.
fn tell_faults(
    rt: &(impl Eprint + AllocGlobal),
    name: &str,
    language: Language,
    source: &[u8],
    size: u16,
) -> Result<String, AsmFault> {
    match FaultPages::new(rt.alloc(), language, source, size) {
        Ok(mut pages) => tell_pages(rt, name, &mut pages),
        Err(fault) => Err(fault),
    }
}

/// Reports all of these pages but the last, which is left.
fn tell_pages(
    rt: &(impl Eprint + AllocGlobal),
    name: &str,
    pages: &mut FaultPages<'_>,
) -> Result<String, AsmFault> {
    for _ in 1..pages.count() {
        match pages.next_page(rt.alloc(), name) {
            Ok(lines) => {
                let _ = rt.eprint(lines);
            }
            Err(fault) => return Err(fault),
        }
    }
    pages.next_page(rt.alloc(), name)
}

/// The fault of a source of this name with each of its faults on a line of its own, in place of the first of them.
fn all_told(
    rt: &(impl Eprint + AllocGlobal),
    name: &str,
    language: Language,
    source: &[u8],
    size: u16,
    first: AsmFault,
) -> AssembleFault {
    if first.kind == AsmKind::OutOfCore {
        return outside_told(rt.alloc(), name, language, source, size, first);
    }
    match tell_faults(rt, name, language, source, size) {
        Ok(lines) => AssembleFault::Faulty(lines),
        Err(_) => AssembleFault::Memory,
    }
}

/// Reports the warnings of a source of this name for a machine with these features on standard error, a page after the
/// other, whether that takes them or not.
///
/// # Errors
///
/// `Memory`, and no more are reported then.
fn tell_warnings(
    rt: &(impl Eprint + AllocGlobal),
    name: &str,
    language: Language,
    source: &[u8],
    size: u16,
    features: Features,
) -> Result<(), AssembleFault> {
    let Ok(found) = warnings(rt.alloc(), language, source, size, features) else {
        return Err(AssembleFault::Memory);
    };
    for page in found.as_slice().chunks(PAGE) {
        let Ok(lines) = warning_lines(rt.alloc(), name, page) else {
            return Err(AssembleFault::Memory);
        };
        let _ = rt.eprint(lines);
    }
    Ok(())
}

/// Reports which chain a source of this name may be for, if a byte isn't allowed in it.
fn report_suggestion(
    rt: &impl Eprint,
    name: &str,
    suggested: Option<Suggestion>,
    outcome: &Result<(), AssembleFault>,
) {
    match (suggested, outcome) {
        (Some(suggested), Err(AssembleFault::Source(first))) if first.kind == AsmKind::Graphic => {
            let _ = eprintln!(rt; "ibm1401: {name}: {suggested}");
        }
        _ => {}
    }
}

/// Assembles the source of a file, and writes its image, its listing or its tables, and its deck. Of a source that
/// assembles the warnings are told after that, if all is to be told.
///
/// # Errors
///
/// `Size` if no core storage of the size named is made, `OneFile` if two of the names lead to one file, `Unread` if the
/// file can't be read; `Source` or `Faulty` if it can't be assembled, and `Deck` if its image has no deck, and nothing
/// is written then; `Output` or `Unwritten` if a text isn't written; or `Memory`.
pub fn assemble_file<R: Files + Print + Eprint + AllocGlobal>(
    rt: &R,
    asked: Assembling,
) -> Result<(), AssembleFault> {
    assemble_named(rt, &asked)
}

/// The same of what is lent.
fn assemble_named<R: Files + Print + Eprint + AllocGlobal>(
    rt: &R,
    asked: &Assembling,
) -> Result<(), AssembleFault> {
    if is_refused(asked.size) {
        return Err(AssembleFault::Size);
    }
    match check_names(rt, asked) {
        Ok(()) => {}
        Err(fault) => return Err(fault),
    }
    match read_source(rt, asked.file.as_str()) {
        Ok(text) => assemble_text(rt, asked, text),
        Err(fault) => Err(fault),
    }
}

/// Assembles the text of a source.
fn assemble_text<R: Files + Print + Eprint + AllocGlobal>(
    rt: &R,
    asked: &Assembling,
    text: Vec<u8>,
) -> Result<(), AssembleFault>
    requires { is_refused asked.now.size ≡ false }
{
    let suggested = match (asked.source_graphics, asked.told) {
        (None, Reported::First) => None,
        _ => suggest_for_source(asked.source_graphics, text.as_slice()),
    };
    let source = in_ours(asked.source_graphics, text);
    assemble_source(rt, asked, source.as_slice(), suggested)
}

/// Assembles a source in this machine's graphics, and reports what is to be reported of it.
fn assemble_source<R: Files + Print + Eprint + AllocGlobal>(
    rt: &R,
    asked: &Assembling,
    source: &[u8],
    suggested: Option<Suggestion>,
) -> Result<(), AssembleFault>
    requires { is_refused asked.now.size ≡ false }
{
    let name = asked.file.as_str();
    let language = asked.language;
    let size = size_for(asked.size, language, source);
    let outcome = write_asked(rt, asked, source, size);
    report_suggestion(rt, name, suggested, &outcome);
    match (outcome, asked.told) {
        (Err(AssembleFault::Source(first)), Reported::All) if first.kind != AsmKind::Memory => Err(
            all_told(rt, name, language, source, size, first),
        ),
        (Ok(()), Reported::All) => tell_warnings(rt, name, language, source, size, asked.features),
        (outcome, Reported::First | Reported::All) => outcome,
    }
}
