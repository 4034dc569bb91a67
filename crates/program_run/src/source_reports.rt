//! What is wrong with the source of a program, on standard error.
ghost use Rattle.std.specs.Prelude.{◌≡◌, false};
ghost use Rattle.program_arguments.specs.SourceSize.{is_refused};

use autocoder_1401::{
    AsmKind, FaultPages, explained_faults, fault_lines, lost_warnings, warning_lines,
};
use autocoder_statements::Language;
use autocoder_symbols::AsmFault;
use program_arguments::size_for;
use std::alloc::AllocError;

/// How many warnings are printed at a time.
const PAGE: usize = 1_000;

/// Reports lines, if their memory wasn't refused.
fn report_lines(rt: &impl Eprint, lines: Result<String, AllocError>) {
    if let Ok(lines) = lines {
        let _ = rt.eprint(lines);
    }
}

/// Reports each fault of the lines of a source of this name.
fn report_pages(
    rt: &(impl Eprint + AllocGlobal),
    name: &str,
    language: Language,
    source: &[u8],
    size: u16,
) {
    if let Ok(mut pages) = FaultPages::new(rt.alloc(), language, source, size) {
        report_each(rt, name, &mut pages);
    }
}

/// Reports a page after the other, until memory for one is refused.
fn report_each(rt: &(impl Eprint + AllocGlobal), name: &str, pages: &mut FaultPages<'_>) {
    for _ in 0..pages.count() {
        match pages.next_page(rt.alloc(), name) {
            Ok(lines) => {
                let _ = rt.eprint(lines);
            }
            Err(_) => return,
        }
    }
}

/// Reports what isn't in core of a source of this name.
fn report_outside(
    rt: &(impl Eprint + AllocGlobal),
    name: &str,
    language: Language,
    source: &[u8],
    size: u16,
) {
    if let Ok(found) = explained_faults(rt.alloc(), language, source, size) {
        let lines = fault_lines(rt.alloc(), name, language, source, size, found.as_slice());
        report_lines(rt, lines);
    }
}

/// Reports each fault of a source of this name, as `assemble --all` does.
pub(crate) fn report_faults(
    rt: &(impl Eprint + AllocGlobal),
    name: &str,
    language: Language,
    source: &[u8],
    size: Option<u16>,
    first: AsmFault,
)
    requires { is_refused size ≡ false }
{
    let size = size_for(size, language, source);
    match first.kind {
        AsmKind::Memory => {},
        AsmKind::OutOfCore => report_outside(rt, name, language, source, size),
        AsmKind::LongLine
        | AsmKind::Graphic
        | AsmKind::Label
        | AsmKind::DoubleLabel
        | AsmKind::Operation
        | AsmKind::Undefined
        | AsmKind::Operand
        | AsmKind::NoEnd
        | AsmKind::AfterEnd => report_pages(rt, name, language, source, size),
    }
}

/// Warns of what isn't read of a source of this name, and of what it doesn't start: it looks as if the program were
/// another one.
pub(crate) fn report_warnings(
    rt: &(impl Eprint + AllocGlobal),
    name: &str,
    language: Language,
    source: &[u8],
) {
    let Ok(found) = lost_warnings(rt.alloc(), language, source) else {
        return;
    };
    for page in found.as_slice().chunks(PAGE) {
        report_lines(rt, warning_lines(rt.alloc(), name, page));
    }
}
