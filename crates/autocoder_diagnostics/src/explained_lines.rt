//! The faults of a source's lines, each with what is wrong.
ghost use Rattle.std.specs.Prelude.{◌≡◌, ◌+◌, ◌++◌, ◌<◌, ◌≤◌, ◌^◌, length, map, IfOk, IfErr, OnOk};
ghost use Rattle.autocoder_statements.specs.SourceLine.{lines_of};
ghost use Rattle.autocoder_symbols.specs.Fault.{IsMemory};
ghost use Rattle.autocoder_symbols.specs.View.{symbols_view};
ghost use Rattle.autocoder_diagnostics.specs.Declarations.{anywhere_of};
ghost use Rattle.autocoder_diagnostics.specs.Explanation.{explained, explained_from, explained_lines, whole_line};
ghost use Rattle.autocoder_diagnostics.specs.Explanation.{explained_beyond, IsReached};
ghost use Rattle.autocoder_diagnostics.specs.OwnFault.{told};
ghost use Rattle.autocoder_diagnostics.specs.ToldFaults.{told_end};
ghost use Rattle.autocoder_diagnostics.specs.declared.explanation.Cause.TheVariants.{NoEnd};

use crate::declarations::Declarations;
use crate::explanation::{Cause, Explanation, WHOLE_LINE, explain};
use crate::own_fault::{Before, told_of};
use autocoder_statements::{Language, Line, split_line};
use autocoder_symbols::{AsmFault, AsmKind, KeptLines, Lines, SourceHashing, read_lines};
use std::alloc::Global;
use std::marker::Model;

/// Up to where the lines of a source are explained.
#[derive(Clone, Copy)]
pub(crate) struct Reached<'s> {
    /// How many lines are.
    pub above: usize,
    /// What these say of the next.
    pub before: Before,
    /// The text of the others.
    pub rest: &'s [u8],
}

/// The faults of a source that aren't taken yet, each with what is wrong. Contracts see the list of them.
#[derive(Drop)]
pub struct ExplanationPages<'s> {
    language: Language,
    lines: KeptLines<'s>,
    this: Declarations,
    reached: Reached<'s>,
    is_ended: bool,
}

impl<'s> Model for ExplanationPages<'s> {
    ghost use Rattle.std.specs.Prelude.{◌<◌, ◌^◌, List, length};
    ghost use Rattle.autocoder_symbols.specs.View.{symbols_view};
    ghost use Rattle.autocoder_diagnostics.specs.Declarations.{anywhere_of};
    ghost use Rattle.autocoder_diagnostics.specs.Explanation.{explanations_left, IsReached};
    ghost use Rattle.autocoder_diagnostics.specs.declared.explanation.Explanation.{Explanation};

    ghost Value = { List Explanation };

    ghost view = { λ pages. explanations_left pages.is_ended pages.language (symbols_view pages.this.symbols)
        (anywhere_of pages.this) pages.lines pages.reached };

    ghost invariant = { λ pages. IsReached pages.lines pages.reached × (length pages.lines < 2 ^ 32) };
}

/// Adds the fault of a line with what is wrong, if one is reported.
fn put_explained(
    language: Language,
    this: &Declarations,
    lines: &Lines<'_>,
    before: Before,
    source: &[u8],
    line: &Line,
    explanations: &mut Vec<Explanation>,
) -> Result<(), AsmFault>
    ensures ok { OnOk result (explanations.new.items ≡ explanations.old.items
        ++ explained language (symbols_view this.now.symbols) (anywhere_of this.now) lines.now
        before.at.number source.now line.now
        (told (symbols_view this.now.symbols) (anywhere_of this.now) before line.now)) }
    ensures err { IfErr result IsMemory }
{
    if let Some(kind) = told_of(this, before, line) {
        let fault = AsmFault {
            line: before.at.number,
            kind,
        };
        explanations.push(explain(language, this, lines, fault, source, line))?;
    }
    Ok(())
}

/// Adds that there is no END, if that is reported.
fn put_explained_end(before: Before, explanations: &mut Vec<Explanation>) -> Result<(), AsmFault>
    ensures ok { OnOk result (explanations.new.items ≡ explanations.old.items
        ++ map (whole_line NoEnd) (told_end before)) }
    ensures err { IfErr result IsMemory }
{
    let is_told = !before.at.is_ended && (before.is_clean || !before.lost_end);
    if is_told {
        explanations.push(Explanation {
            fault: AsmFault {
                line: before.at.number,
                kind: AsmKind::NoEnd,
            },
            columns: WHOLE_LINE,
            cause: Cause::NoEnd,
        })?;
    }
    Ok(())
}

/// Adds the faults of the next lines, this many at most, and says up to where these are.
fn put_some<'s>(
    language: Language,
    this: &Declarations,
    lines: &Lines<'_>,
    reached: Reached<'s>,
    most: usize,
    explanations: &mut Vec<Explanation>,
) -> Result<Reached<'s>, AsmFault>
    requires reached { IsReached lines.now reached }
    requires few { length lines.now < 2 ^ 32 }
    ensures ok { IfOk result (λ further. explanations.new.items
        ++ explained_beyond language (symbols_view this.now.symbols) (anywhere_of this.now) lines.now further
        ≡ explanations.old.items
        ++ explained_beyond language (symbols_view this.now.symbols) (anywhere_of this.now) lines.now
        reached.entry) }
    ensures reached { IfOk result (IsReached lines.now) }
    ensures all { length lines.now ≤ reached.entry.above + most
        → IfOk result (λ further. length lines.now ≤ further.above) }
    ensures err { IfErr result IsMemory }
{
    let Reached {
        above,
        mut before,
        mut rest,
    } = reached;
    let to = lines.len().min(above.saturating_add(most));
    for i in above..to {
        let line = &lines.line(i);
        let Some((text, beyond)) = split_line(rest) else {
            unreachable!()
        };
        put_explained(language, this, lines, before, text, line, explanations)?;
        before = before.next(&this.symbols, line);
        rest = beyond;
    }
    Ok(Reached {
        above: to,
        before,
        rest,
    })
}

impl<'s> ExplanationPages<'s> {
    /// Adds the faults of the next lines, this many at most.
    ///
    /// # Errors
    ///
    /// `Memory` if there is no room for them.
    #[tactic(auto, using(crate::proofs::ExplanationLemmas::none_beyond))]
    pub fn put_page(
        &mut self,
        most: usize,
        explanations: &mut Vec<Explanation>,
    ) -> Result<(), AsmFault>
        ensures ok { OnOk result (explanations.new.items ++ self.new ≡ explanations.old.items ++ self.old) }
        ensures err { IfErr result IsMemory }
    {
        if self.is_ended {
            return Ok(());
        }
        let lines = self.lines.lend();
        let further = put_some(
            self.language,
            &self.this,
            &lines,
            self.reached,
            most,
            explanations,
        )?;
        if further.above >= lines.len() {
            put_explained_end(further.before, explanations)?;
            self.is_ended = true;
        }
        self.reached = further;
        Ok(())
    }

    /// Adds all that are left.
    #[tactic(auto, using(crate::proofs::ExplanationLemmas::none_beyond))]
    fn put_all(&mut self, explanations: &mut Vec<Explanation>) -> Result<(), AsmFault>
        ensures ok { OnOk result (explanations.new.items ≡ explanations.old.items ++ self.old) }
        ensures err { IfErr result IsMemory }
    {
        if self.is_ended {
            return Ok(());
        }
        let lines = self.lines.lend();
        let further = put_some(
            self.language,
            &self.this,
            &lines,
            self.reached,
            lines.len(),
            explanations,
        )?;
        put_explained_end(further.before, explanations)
    }

    /// How many lines the source has.
    pub fn count(&self) -> usize {
        self.lines.lend().len()
    }
}

/// The faults of a source, each with what is wrong, but for what isn't in core. They are taken a page after the other.
///
/// # Errors
///
/// `Memory` if memory is refused or the source is too long.
pub fn explanation_pages(
    alloc: Global,
    language: Language,
    source: &[u8],
) -> Result<ExplanationPages<'_>, AsmFault>
    ensures ok { IfOk result (λ pages. pages ≡ explained_lines language (lines_of source.now)) }
    ensures err { IfErr result IsMemory }
{
    let lines = read_lines(alloc, language, source)?;
    let hashing = SourceHashing::from_source(source);
    let this = Declarations::new(alloc, hashing, language, &lines.lend())?;
    Ok(ExplanationPages {
        language,
        lines,
        this,
        reached: Reached {
            above: 0,
            before: Before::NOTHING,
            rest: source,
        },
        is_ended: false,
    })
}

/// The faults of a source, each with what is wrong, but for what isn't in core.
///
/// # Errors
///
/// `Memory` if memory is refused or the source is too long.
pub fn source_explanations(
    alloc: Global,
    language: Language,
    source: &[u8],
) -> Result<Vec<Explanation>, AsmFault>
    ensures ok { IfOk result (λ v. v.items ≡ explained_lines language (lines_of source.now)) }
    ensures err { IfErr result IsMemory }
{
    let mut pages = explanation_pages(alloc, language, source)?;
    let mut explanations = Vec::new(alloc);
    pages.put_all(&mut explanations)?;
    Ok(explanations)
}
