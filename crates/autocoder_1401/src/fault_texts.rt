//! The faults of a source as editors read them, a page after the other.

use crate::messages::{put_help, put_outside_help, put_position, string_of, suffix_in};
use autocoder_diagnostics::{Cause, Explanation, ExplanationPages, explanation_pages};
use autocoder_statements::{Language, split_line};
use autocoder_symbols::{AsmFault, AsmKind};
use bytes_text::Text;
use std::alloc::{AllocError, Global};

/// How many lines' faults are a page: so many are held.
const PAGE: usize = 1_000;

/// The texts of the faults of a source, in the order of its lines, which are read along with them.
#[derive(Drop)]
struct FaultTexts<'s> {
    language: Language,
    source: &'s [u8],
    /// The size of core storage.
    size: u16,
    /// How many lines are read.
    passed: u64,
    /// The last of them.
    line: &'s [u8],
    /// The lines after it.
    rest: &'s [u8],
    /// The suffix of the symbols below it.
    suffix: Option<u8>,
}

/// Adds the name of a kind of fault, which is printed as its number and its name.
fn put_kind(alloc: Global, text: &mut Text, kind: AsmKind) {
    match format!(in alloc; "{kind}") {
        Ok(kind) => text.put(match kind.as_bytes() {
            [_, b' ', name @ ..] | [_, _, b' ', name @ ..] => name,
            name => name,
        }),
        Err(_) => text.fail(),
    }
}

impl<'s> FaultTexts<'s> {
    /// Before the first line.
    fn new(language: Language, source: &'s [u8], size: u16) -> FaultTexts<'s> {
        FaultTexts {
            language,
            source,
            size,
            passed: 0,
            line: &[],
            rest: source,
            suffix: None,
        }
    }

    /// Reads on to the line of this number.
    fn read_to(&mut self, number: u64) {
        for _ in self.passed..number {
            self.suffix = suffix_in(self.language, self.line, self.suffix);
            let (line, rest) = split_line(self.rest).unwrap_or((&[], &[]));
            self.line = line;
            self.rest = rest;
        }
        self.passed = number;
    }

    /// Adds what is wrong at a fault of the line that was read last.
    fn put_help(&self, alloc: Global, text: &mut Text, explanation: &Explanation) {
        match explanation.cause {
            Cause::OutOfCore => {
                put_outside_help(alloc, text, self.language, self.source, self.size);
            }
            _ => put_help(text, self.language, explanation, self.line, self.suffix),
        }
    }

    /// A line for each of the next faults of the source of this file.
    fn next_lines(
        &mut self,
        alloc: Global,
        file: &str,
        faults: &[Explanation],
    ) -> Result<String, AllocError> {
        let mut lines = Text::new(alloc);
        for explanation in faults {
            let fault = explanation.fault;
            self.read_to(fault.line);
            put_position(&mut lines, file, fault.line, explanation.columns.column);
            put_kind(alloc, &mut lines, fault.kind);
            lines.put(b": ");
            self.put_help(alloc, &mut lines, explanation);
            lines.put(b"\n");
        }
        string_of(lines)
    }
}

/// What is wrong at a fault of a source, for core storage of this size, in a few words: `MLL isn't an operation; did you
/// mean MLC?`.
pub fn fault_help(
    alloc: Global,
    language: Language,
    source: &[u8],
    size: u16,
    explanation: Explanation,
) -> Result<String, AllocError> {
    let mut texts = FaultTexts::new(language, source, size);
    let mut help = Text::new(alloc);
    texts.read_to(explanation.fault.line);
    texts.put_help(alloc, &mut help, &explanation);
    string_of(help)
}

/// A line for each fault of the source of this file, for core storage of this size: `sales.source:4:16: OPERATION: ..`.
pub fn fault_lines(
    alloc: Global,
    file: &str,
    language: Language,
    source: &[u8],
    size: u16,
    faults: &[Explanation],
) -> Result<String, AllocError> {
    FaultTexts::new(language, source, size).next_lines(alloc, file, faults)
}

/// The faults of a source's lines that aren't printed yet.
#[derive(Drop)]
pub struct FaultPages<'s> {
    explanations: ExplanationPages<'s>,
    texts: FaultTexts<'s>,
}

impl<'s> FaultPages<'s> {
    /// All faults of a source's lines, but for what isn't in core of this size.
    ///
    /// # Errors
    ///
    /// `Memory` if memory is refused or the source is too long.
    pub fn new(
        alloc: Global,
        language: Language,
        source: &'s [u8],
        size: u16,
    ) -> Result<FaultPages<'s>, AsmFault> {
        let explanations = explanation_pages(alloc, language, source)?;
        Ok(FaultPages {
            explanations,
            texts: FaultTexts::new(language, source, size),
        })
    }

    /// How many pages there are.
    pub fn count(&self) -> usize {
        self.explanations.count() / PAGE + 1
    }

    /// The next page of what `fault_lines` makes of them, for the source of this file.
    ///
    /// # Errors
    ///
    /// `Memory` if there is no room for a page.
    pub fn next_page(&mut self, alloc: Global, file: &str) -> Result<String, AsmFault> {
        let mut found = Vec::new(alloc);
        self.explanations.put_page(PAGE, &mut found)?;
        Ok(self.texts.next_lines(alloc, file, &found)?)
    }
}
