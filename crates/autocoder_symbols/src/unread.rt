//! Lines of a source that are read again when they are asked for.
ghost use Rattle.std.specs.Prelude.{◌≡◌, ◌+◌, ◌<◌, ◌≤◌, ◌∷◌, length, drop, IfSome};
ghost use Rattle.std.specs.List.{position_or_len};
ghost use Rattle.autocoder_statements.specs.Context.{in_context, with_registers};
ghost use Rattle.autocoder_statements.specs.Language.{line_in};
ghost use Rattle.autocoder_statements.specs.SourceLine.{is_line_feed, lines_of};
ghost use Rattle.autocoder_statements.specs.declared.language.Language.TheVariants.{Ibm};
ghost use Rattle.autocoder_symbols.specs.Unread.{first_line, graphic_or_none, context_of, line_below, read_again};

use autocoder_statements::{Context, Language, Line, Registers, split_line};
use memchr::memchr;

/// Where a line begins in its source, and what the lines above it say of it.
#[derive(Clone, Copy)]
pub(crate) struct Unread {
    /// How many bytes come before it.
    pub start: u32,
    /// The suffix of its symbols, 0 for none.
    pub suffix: u8,
    /// The graphic of the operation character of the instruction directly above it, 0 for none.
    pub above: u8,
    /// Whether there is a CTL above it.
    pub is_controlled: bool,
}

/// A source, and how its lines are read.
#[derive(Clone, Copy)]
pub(crate) struct Reading<'s> {
    /// The source.
    pub source: &'s [u8],
    /// Its language.
    pub language: Language,
    /// Which of X1 to X3 are labels.
    pub registers: Registers,
}

/// A graphic, or nothing if it is 0.
fn graphic_or_none(graphic: u8) -> Option<u8>
    ensures { result ≡ graphic_or_none graphic }
{
    if graphic == 0 { None } else { Some(graphic) }
}

impl Unread {
    /// A line that begins after this many bytes, below others; none if it can't be held, as in a source of more than
    /// 4,294,967,295 bytes.
    pub(crate) fn new(start: usize, context: Context) -> Option<Unread>
        ensures start { IfSome result (λ unread. unread.start ≡ start) }
        ensures context { IfSome result (λ unread. context_of unread ≡ context) }
    {
        let unread = Unread {
            start: u32::try_from(start).ok()?,
            suffix: context.suffix.unwrap_or(0),
            above: context.above.unwrap_or(0),
            is_controlled: context.is_controlled,
        };
        if unread.context() == context {
            Some(unread)
        } else {
            None
        }
    }

    /// What the lines above say.
    fn context(self) -> Context
        ensures { result ≡ context_of self }
    {
        Context {
            suffix: graphic_or_none(self.suffix),
            is_controlled: self.is_controlled,
            above: graphic_or_none(self.above),
        }
    }
}

/// The bytes of a source from one on.
pub(crate) fn bytes_from(source: &[u8], start: usize) -> &[u8]
    ensures { result.now ≡ drop start source.now }
{
    source.get(start..).unwrap_or(&[])
}

/// The first line of a source, empty if it has none.
pub(crate) fn first_line(source: &[u8]) -> &[u8]
    ensures { result.now ≡ first_line source.now }
{
    match split_line(source) {
        Some((line, _)) => line,
        None => &[],
    }
}

/// How many bytes of a source stand before its first line feed.
#[tactic(auto, using(autocoder_statements::proofs::SourceLineLemmas::before_line_feed))]
fn bytes_before_line_feed(source: &[u8]) -> usize
    ensures value { result ≡ position_or_len is_line_feed source.now }
    ensures bound { result ≤ length source.now }
{
    memchr(b'\n', source).unwrap_or(source.len())
}

/// How many bytes there are up to the second line of a source, as if its last line ended in a line feed too.
#[tactic(auto, using(crate::proofs::UnreadLemmas::next_line))]
pub(crate) fn bytes_to_next(source: &[u8]) -> usize
    requires { 0 < length source.now }
    ensures next { lines_of source.now ≡ first_line source.now ∷ lines_of (drop result source.now) }
    ensures some { 0 < result }
    ensures bound { result ≤ length source.now + 1 }
{
    bytes_before_line_feed(source) + 1
}

/// What a line says which says this below others, with these as labels.
#[tactic(auto, using(autocoder_statements::proofs::ContextLemmas::without_registers))]
pub(crate) fn with_registers(registers: Registers, line: Line) -> Line
    ensures { result ≡ with_registers registers line }
{
    if registers.any() {
        registers.line(line)
    } else {
        line
    }
}

/// What a line in the wider language says below others, with these as labels.
fn wide_line_below(registers: Registers, context: Context, text: &[u8]) -> Line
    ensures { result ≡ with_registers registers (in_context context (line_in Ibm text.now)) }
{
    let mut line = Line::in_language(Language::Ibm, text);
    context.settle(&mut line);
    with_registers(registers, line)
}

impl Reading<'_> {
    /// What a line says below others.
    fn line_below(&self, context: Context, text: &[u8]) -> Line
        ensures { result ≡ line_below self.now.language self.now.registers context text.now }
    {
        match self.language {
            Language::Plain => Line::from_bytes(text),
            Language::Ibm => wide_line_below(self.registers, context, text),
        }
    }

    /// What a line says, read again.
    pub(crate) fn line(&self, unread: Unread) -> Line
        ensures { result ≡ read_again self.now.language self.now.registers self.now.source.now unread }
    {
        let rest = bytes_from(self.source, unread.start as usize);
        self.line_below(unread.context(), first_line(rest))
    }
}
