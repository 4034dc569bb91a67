//! The files that a run reads: its program, and its deck.
ghost use Rattle.std.specs.Prelude.{◌≡◌, ◌++◌, [], true, false, Ok, Err, IfOk, IfErr, map, option_map, string_bytes};
ghost use Rattle.std.specs.Prelude.{unwrap_or};
ghost use Rattle.cpu_1401.specs.State.{power_on};
ghost use Rattle.bcd_1401.specs.Graphics.{chain_of, ours_of};
ghost use Rattle.job_runner.specs.DeckText.{deck_of};
ghost use Rattle.program_run.specs.Program.{IsNoImage, IsNoProgram, is_meant_as_image};
ghost use Rattle.program_arguments.specs.declared.call.Start.TheVariants.{Entry};
ghost use Rattle.program_arguments.specs.SourceSize.{is_refused};
ghost use Rattle.program_run.specs.RunFile.{IsOfFile, IsUnread, IsUnreadFile, inputs_of};
ghost use Rattle.program_run.specs.RunJob.{HasFile, HasProgram, IsBegun, IsDeckText};

use crate::fault::RunFault;
use crate::programs::{image_machine, is_image, loaded_machine, machine_of, program_of};
use crate::source_reports::{report_faults, report_warnings};
use crate::stopped_at::RunSource;
use autocoder_1401::{AsmFault, AsmKind};
use autocoder_statements::Language;
use bcd_1401::{Graphics, Suggestion, in_ours, suggest, suggest_for_source};
use bytes_descriptors::{FileFault, read_whole};
use cpu_1401::Machine;
use job_runner::{CardList, Deck, DeckTextFault, read_deck};
use program_arguments::{DEFAULT_SIZE, Job, Start};
use std::alloc::Global;
use std::rt::Files;

/// The bytes of a file.
///
/// # Errors
///
/// `File`, with the name as it was given; else `Memory`.
fn read_file(rt: &(impl Files + AllocGlobal), name: &str) -> Result<Vec<u8>, RunFault>
    ensures { IfErr result (IsUnreadFile name.now) }
{
    match read_whole(rt, name) {
        Ok(bytes) => Ok(bytes),
        Err(fault) => Err(unread(rt.alloc(), name, fault)),
    }
}

/// The fault of a file of this name that can't be read.
pub(crate) fn unread(alloc: Global, name: &str, fault: FileFault) -> RunFault
    ensures { IsUnreadFile name.now result }
{
    match (fault, String::from_str(alloc, name)) {
        (FileFault::Memory, _) | (_, Err(_)) => RunFault::Memory,
        (fault, Ok(name)) => RunFault::File(name, fault),
    }
}

/// Reports on standard error that a deck of this name has small letters.
pub fn tell_small_letters(rt: &impl Eprint, name: &str) {
    let _ = eprintln!(rt; "ibm1401: {name}: small letters are read as capitals");
}

/// Reports which chain a text of this name may be for, if something shows it.
fn report_suggestion(rt: &impl Eprint, name: &str, suggested: Option<Suggestion>) {
    if let Some(suggested) = suggested {
        let _ = eprintln!(rt; "ibm1401: {name}: {suggested}");
    }
}

/// The fault of a deck of this name that is none.
fn no_deck(alloc: Global, name: &str, fault: DeckTextFault) -> RunFault
    ensures { IsOfFile name.now result }
{
    match (fault, String::from_str(alloc, name)) {
        (DeckTextFault::Memory, _) | (_, Err(_)) => RunFault::Memory,
        (fault, Ok(name)) => RunFault::Deck(name, fault),
    }
}

/// The cards of a deck's file, which has the graphics of the chain that was asked for. It is reported, once, if the file
/// has small letters, or bytes that show another chain.
///
/// # Errors
///
/// `File` if the file can't be read, `Deck` if a line is no card, or `Memory`.
pub fn read_cards(
    rt: &(impl Files + Eprint + AllocGlobal),
    name: String,
    asked: Option<Graphics>,
) -> Result<CardList, RunFault>
    ensures cards { IfOk result IsDeckText }
    ensures fault { IfErr result (IsOfFile (string_bytes name)) }
{
    cards_of(rt, name.as_str(), asked)
}

/// The same of a name that is lent.
#[tactic(auto, using(crate::proofs::BegunLemmas::is_deck_text))]
fn cards_of(
    rt: &(impl Files + Eprint + AllocGlobal),
    name: &str,
    asked: Option<Graphics>,
) -> Result<CardList, RunFault>
    ensures cards { IfOk result IsDeckText }
    ensures fault { IfErr result (IsOfFile name.now) }
{
    match read_file(rt, name) {
        Ok(text) => cards_in(rt, name, text, asked),
        Err(fault) => Err(fault),
    }
}

/// The cards of this text of a deck's file.
fn cards_in(
    rt: &(impl Eprint + AllocGlobal),
    name: &str,
    text: Vec<u8>,
    asked: Option<Graphics>,
) -> Result<CardList, RunFault>
    ensures cards { IfOk result (λ cards. deck_of (map (ours_of (chain_of asked)) text.items) ≡ Ok cards) }
    ensures fault { IfErr result (IsOfFile name.now) }
{
    report_suggestion(rt, name, suggest(asked, text.as_slice()));
    match read_deck(rt.alloc(), in_ours(asked, text).as_slice()) {
        Ok(deck) => {
            if deck.has_small_letters {
                tell_small_letters(rt, name);
            }
            Ok(deck.cards)
        }
        Err(fault) => Err(no_deck(rt.alloc(), name, fault)),
    }
}

/// What a run begins with.
#[derive(Drop)]
pub(crate) struct Inputs {
    /// A machine with the program.
    pub machine: Machine,
    /// The cards that follow those in its hopper.
    pub cards: CardList,
    /// The program's source, if it has one.
    pub source: Option<RunSource>,
}

/// Reports what is wrong with the source of this name, whose first fault this is: all faults, or what may be said of a
/// source without any; and which chain it may be for, if a byte isn't allowed in it.
pub fn report_source(
    rt: &(impl Eprint + AllocGlobal),
    name: &str,
    language: Language,
    text: &[u8],
    size: Option<u16>,
    fault: Option<AsmFault>,
    suggested: Option<Suggestion>,
)
    requires { is_refused size ≡ false }
{
    report_suggestion(rt, name, suggested_by(fault, suggested));
    match fault {
        None => report_warnings(rt, name, language, text),
        Some(first) => report_faults(rt, name, language, text, size, first),
    }
}

/// The text of a program: that of an image as it is, and a source in this machine's graphics.
fn program_text(asked: Option<Graphics>, text: Vec<u8>) -> Vec<u8>
    ensures image { is_meant_as_image text.items ≡ true → result.items ≡ text.items }
    ensures source { is_meant_as_image text.items ≡ false
        → result.items ≡ map (ours_of (chain_of asked)) text.items }
{
    if is_image(text.as_slice()) {
        text
    } else {
        in_ours(asked, text)
    }
}

/// What may be said of the chain of a source whose first fault this is, if a byte isn't allowed in it.
fn suggested_by(fault: Option<AsmFault>, suggested: Option<Suggestion>) -> Option<Suggestion> {
    match fault {
        Some(first) if first.kind == AsmKind::Graphic => suggested,
        _ => None,
    }
}

/// The first fault of a source that is no program.
fn fault_of(program: &Result<Machine, RunFault>) -> Option<AsmFault> {
    match program {
        Err(RunFault::Source(first)) => Some(*first),
        _ => None,
    }
}

/// A machine with the program of an image's text, and no cards.
#[tactic(auto, using(crate::proofs::BegunLemmas::has_image))]
fn image_inputs(
    alloc: Global,
    language: Language,
    text: &[u8],
    size: Option<u16>,
) -> Result<Inputs, RunFault>
    requires { is_meant_as_image text.now ≡ true }
    ensures file { IfOk result (λ inputs. HasProgram language size inputs.machine inputs.cards) }
    ensures fault { IfErr result (IsNoImage text.now) }
{
    match image_machine(alloc, text) {
        Ok(machine) => Ok(Inputs {
            machine,
            cards: CardList::new(alloc),
            source: None,
        }),
        Err(fault) => Err(fault),
    }
}

/// A machine with the program of a source.
#[tactic(auto, using(crate::proofs::BegunLemmas::has_source))]
fn source_machine(
    alloc: Global,
    language: Language,
    text: &[u8],
    size: Option<u16>,
) -> Result<Machine, RunFault>
    requires source { is_meant_as_image text.now ≡ false }
    requires size { is_refused size ≡ false }
    ensures program { IfOk result (λ machine. HasProgram language size machine []) }
    ensures fault { IfErr result IsNoProgram }
{
    match program_of(alloc, language, text, size) {
        Ok(image) => loaded_machine(alloc, &image),
        Err(fault) => Err(fault),
    }
}

/// Assembles a job's source into a machine without cards, and reports its faults.
fn source_inputs(
    rt: &(impl Eprint + AllocGlobal),
    job: &Job,
    text: Vec<u8>,
    suggested: Option<Suggestion>,
) -> Result<Inputs, RunFault>
    requires source { is_meant_as_image text.items ≡ false }
    requires size { is_refused job.now.size ≡ false }
    ensures file { IfOk result (λ inputs. HasProgram job.now.language job.now.size inputs.machine inputs.cards) }
    ensures fault { IfErr result IsNoProgram }
{
    let language = job.language;
    let made = source_machine(rt.alloc(), language, text.as_slice(), job.size);
    let fault = fault_of(&made);
    let name = job.file.as_str();
    report_source(
        rt,
        name,
        language,
        text.as_slice(),
        job.size,
        fault,
        suggested,
    );
    match made {
        Ok(machine) => Ok(Inputs {
            machine,
            cards: CardList::new(rt.alloc()),
            source: Some(RunSource { language, text }),
        }),
        Err(fault) => Err(fault),
    }
}

/// The text of a program's file, as `program_text` gives it, and which chain it may be for, if something shows it.
///
/// # Errors
///
/// `File`, with the name as it was given; else `Memory`.
pub fn read_program_text(
    rt: &(impl Files + AllocGlobal),
    file: String,
    asked: Option<Graphics>,
) -> Result<(Vec<u8>, Option<Suggestion>), RunFault>
    ensures { IfErr result (IsUnreadFile (string_bytes file)) }
{
    text_of(rt, file.as_str(), asked)
}

/// The same of a name that is lent.
fn text_of(
    rt: &(impl Files + AllocGlobal),
    file: &str,
    asked: Option<Graphics>,
) -> Result<(Vec<u8>, Option<Suggestion>), RunFault>
    ensures { IfErr result (IsUnreadFile file.now) }
{
    match read_file(rt, file) {
        Ok(read) => {
            let suggested = suggest_for_source(asked, read.as_slice());
            Ok((program_text(asked, read), suggested))
        }
        Err(fault) => Err(fault),
    }
}

/// A machine with the program of a source or an image, and no cards. What is wrong with a source is reported.
fn read_program(rt: &(impl Files + Eprint + AllocGlobal), job: &Job) -> Result<Inputs, RunFault>
    requires { is_refused job.now.size ≡ false }
    ensures file { IfOk result (λ inputs. HasProgram job.now.language job.now.size inputs.machine inputs.cards) }
    ensures fault { IfErr result (IsUnread Entry job.now.size (inputs_of job.now)) }
{
    let (text, suggested) = match text_of(rt, job.file.as_str(), job.source_graphics) {
        Ok(read) => read,
        Err(fault) => return Err(fault),
    };
    if is_image(text.as_slice()) {
        image_inputs(rt.alloc(), job.language, text.as_slice(), job.size)
    } else {
        source_inputs(rt, job, text, suggested)
    }
}

/// A machine at power-on, and these cards.
fn bare_inputs(alloc: Global, size: Option<u16>, cards: CardList) -> Result<Inputs, RunFault>
    requires { is_refused size ≡ false }
    ensures machine { IfOk result (λ inputs. inputs.machine ≡ power_on (unwrap_or size 4000)) }
    ensures cards { IfOk result (λ inputs. inputs.cards ≡ cards) }
    ensures err { IfErr result (λ why. why ≡ RunFault.Memory) }
{
    match machine_of(alloc, size.unwrap_or(DEFAULT_SIZE)) {
        Ok(machine) => Ok(Inputs {
            machine,
            cards,
            source: None,
        }),
        Err(_) => Err(RunFault::Memory),
    }
}

/// What a job begins with: the program of its file, and its deck.
///
/// # Errors
///
/// `File` if a file can't be read; `Source`, `Image` or `Deck` if it has no program or is no deck; or `Memory`.
#[tactic(auto, using(crate::proofs::BegunLemmas::begun_alone, crate::proofs::BegunLemmas::begun_with))]
pub(crate) fn read_inputs(
    rt: &(impl Files + Eprint + AllocGlobal),
    job: &Job,
) -> Result<Inputs, RunFault>
    requires { is_refused job.now.size ≡ false }
    ensures begun { IfOk result (λ inputs. IsBegun job.now.start job.now.language job.now.size
        (option_map string_bytes job.now.cards) inputs.machine inputs.cards) }
    ensures fault { IfErr result (IsUnread job.now.start job.now.size (inputs_of job.now)) }
{
    let inputs = match read_own(rt, job) {
        Ok(inputs) => inputs,
        Err(fault) => return Err(fault),
    };
    match &job.cards {
        Some(name) => match cards_of(rt, name.as_str(), job.graphics) {
            Ok(beyond) => with_cards(inputs, &beyond),
            Err(fault) => Err(fault),
        },
        None => Ok(inputs),
    }
}

/// What the program's file gives.
#[tactic(auto, using(crate::proofs::BegunLemmas::has_loader))]
fn read_own(rt: &(impl Files + Eprint + AllocGlobal), job: &Job) -> Result<Inputs, RunFault>
    requires { is_refused job.now.size ≡ false }
    ensures file { IfOk result
        (λ inputs. HasFile job.now.start job.now.language job.now.size inputs.machine inputs.cards) }
    ensures fault { IfErr result (IsUnread job.now.start job.now.size (inputs_of job.now)) }
{
    match job.start {
        Start::Entry => read_program(rt, job),
        Start::LoadKey => match cards_of(rt, job.file.as_str(), job.graphics) {
            Ok(cards) => bare_inputs(rt.alloc(), job.size, cards),
            Err(fault) => Err(fault),
        },
        Start::LoadTape(_) => bare_inputs(rt.alloc(), job.size, CardList::new(rt.alloc())),
    }
}

/// What a run begins with, with more cards after its own.
fn with_cards(inputs: Inputs, beyond: &CardList) -> Result<Inputs, RunFault>
    ensures ok { IfOk result (λ more. (more.machine ≡ inputs.machine) × (more.cards ≡ inputs.cards ++ beyond.now)) }
    ensures err { IfErr result (λ why. why ≡ RunFault.Memory) }
{
    let Inputs {
        machine,
        mut cards,
        source,
    } = inputs;
    match cards.append(&Deck::new(beyond)) {
        Ok(()) => Ok(Inputs {
            machine,
            cards,
            source,
        }),
        Err(_) => Err(RunFault::Memory),
    }
}
