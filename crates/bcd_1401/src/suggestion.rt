//! What the bytes of a text show of the chain that it was made for.
ghost use Rattle.std.specs.Prelude.{◌≡◌, ◌==◌};
ghost use Rattle.std.specs.List.{list_any};
ghost use Rattle.bcd_1401.specs.Suggestion.{foreign_bytes, has_any, is_one_of, shown_on, suggestion_of};
ghost use Rattle.bcd_1401.specs.Suggestion.{of_source, suggestion_for_source, suggestion_on};
ghost use Rattle.bcd_1401.specs.Graphics.{chain_of};

use crate::graphics::Graphics;
use std::fmt;

/// The bytes of a chain for formulas that are other characters here. An apostrophe is one too, but names have it.
const FORMULA_SIGNS: &[u8] = b"=(+";

/// What is said of them.
const DOUBTFUL: &str =
    "= ( + are other characters on a chain for formulas; --graphics fortran or ours says which chain";

/// What is said of bytes that only SIMH's chain has.
const SIMH: &str = "some bytes are graphics of another chain: --graphics simh reads those of SIMH";

/// What is said of bytes that only a chain for formulas has.
const FORTRAN: &str =
    "some bytes are graphics of another chain: --graphics fortran reads those for formulas";

/// The same of a source, if a chain was asked for: `--graphics` may be right for the decks.
const SOURCE_SIMH: &str =
    "some bytes are graphics of another chain: --source-graphics simh reads those of SIMH";

const SOURCE_FORTRAN: &str =
    "some bytes are graphics of another chain: --source-graphics fortran reads those for formulas";

/// What may be said of a text's graphics.
#[derive(Clone, Copy, Debug, PartialEq, Eq)]
pub enum Suggestion {
    /// Some bytes are graphics of SIMH's chain, and of no character of this deck's.
    Simh,
    /// Some bytes are graphics of a chain for formulas, and of no character of this deck's.
    Fortran,
    /// No chain was asked for, and some bytes are other characters on a chain for formulas.
    Doubtful,
    /// A chain was asked for a source, some of whose bytes are graphics of SIMH's chain alone.
    SourceSimh,
    /// A chain was asked for a source, some of whose bytes are graphics of a chain for formulas alone.
    SourceFortran,
}

/// Whether a byte is one of these.
fn is_one_of(bytes: &[u8], byte: u8) -> bool
    ensures { result ≡ is_one_of bytes.now byte }
{
    bytes.iter().any(|each| *each == byte)
}

/// Whether a text has one of these bytes.
fn has_any(bytes: &[u8], text: &[u8]) -> bool
    ensures { result ≡ has_any bytes.now text.now }
{
    text.iter().any(|byte| is_one_of(bytes, *byte))
}

impl Graphics {
    /// The bytes that are graphics of another chain, and of no character of this one.
    fn foreign_bytes(self) -> &'static [u8]
        ensures { result.now ≡ foreign_bytes self }
    {
        match self {
            Graphics::Ours => b"{|~}".as_slice(),
            Graphics::Simh => b"='(+".as_slice(),
            Graphics::Fortran => b"#@%&".as_slice(),
        }
    }

    /// What those bytes show.
    fn shown(self) -> Suggestion
        ensures { result ≡ shown_on self }
    {
        match self {
            Graphics::Ours | Graphics::Fortran => Suggestion::Simh,
            Graphics::Simh => Suggestion::Fortran,
        }
    }
}

/// What is said of bytes of a text that are graphics of another chain, and of no character of the chain asked for.
fn suggest_foreign(asked: Option<Graphics>, text: &[u8]) -> Option<Suggestion>
    ensures { result ≡ suggestion_on (chain_of asked) text.now }
{
    let graphics = asked.unwrap_or(Graphics::Ours);
    if has_any(graphics.foreign_bytes(), text) {
        Some(graphics.shown())
    } else {
        None
    }
}

/// What is said of the graphics of a deck: the same, or without a chain that was asked for that some bytes are doubtful.
pub fn suggest(asked: Option<Graphics>, text: &[u8]) -> Option<Suggestion>
    ensures { result ≡ suggestion_of asked text.now }
{
    if asked.is_none() && has_any(FORMULA_SIGNS, text) {
        Some(Suggestion::Doubtful)
    } else {
        suggest_foreign(asked, text)
    }
}

impl Suggestion {
    /// The same of a source alone.
    fn of_source(self) -> Suggestion
        ensures { result ≡ of_source self }
    {
        match self {
            Suggestion::Simh | Suggestion::SourceSimh => Suggestion::SourceSimh,
            Suggestion::Fortran | Suggestion::SourceFortran => Suggestion::SourceFortran,
            Suggestion::Doubtful => Suggestion::Doubtful,
        }
    }
}

/// What is said of the graphics of a source, of its foreign bytes alone. If a chain was asked for, the option is named
/// that is for the source alone.
pub fn suggest_for_source(asked: Option<Graphics>, text: &[u8]) -> Option<Suggestion>
    ensures { result ≡ suggestion_for_source asked text.now }
{
    let suggested = suggest_foreign(asked, text);
    match asked {
        None => suggested,
        Some(_) => match suggested {
            Some(found) => Some(found.of_source()),
            None => None,
        },
    }
}

impl fmt::Display for Suggestion {
    fn fmt<W: fmt::Write>(&self, f: &mut fmt::Formatter<W>) -> fmt::Result {
        f.write_str(match self {
            Suggestion::Simh => SIMH,
            Suggestion::Fortran => FORTRAN,
            Suggestion::Doubtful => DOUBTFUL,
            Suggestion::SourceSimh => SOURCE_SIMH,
            Suggestion::SourceFortran => SOURCE_FORTRAN,
        })
    }
}
