//! The languages of a source, and what a line says in each.
ghost use Rattle.std.specs.Prelude.{◌≡◌, ◌&&◌, not};
ghost use Rattle.autocoder_statements.specs.Language.{has_cut_constant, is_sound, line_in, wider_line};
ghost use Rattle.autocoder_statements.specs.declared.language.Language.TheVariants as languages;

use crate::columns::{COLUMNS, columns_in, columns_of, is_comment};
use crate::statement::{Line, LineCheck};
use crate::wide_columns::{is_constant_operation, plus_signs, put_capitals};
use crate::wide_constant::has_cut_text;

/// The language of a source.
#[derive(Clone, Copy)]
pub enum Language {
    /// The plain language: capitals alone, and one form for each mnemonic.
    Plain,
    /// The wider Autocoder of C24-3258 and J24-1434. What the plain language takes says the same in it, but for a text that
    /// ends before another at sign of its line: it goes on to the last one.
    Ibm,
}

/// Whether the columns hold a constant whose text the plain language ends before another at sign of the line.
fn has_cut_constant(columns: &[u8; COLUMNS]) -> bool
    ensures { result ≡ has_cut_constant columns.now }
{
    !is_comment(columns)
        && is_constant_operation(columns_in(columns, 16, 20))
        && has_cut_text(columns_in(columns, 21, 72))
}

impl Line {
    /// Whether nothing is wrong with the line, whatever the other lines are.
    // Never inlined, since a function makes room at its entry for the locals of all of its arms.
    #[inline(never)]
    pub fn is_sound(&self) -> bool
        ensures { result ≡ is_sound self.now }
    {
        match (self.bytes, &self.statement) {
            (LineCheck::Long | LineCheck::Foreign, _) => false,
            (LineCheck::Good, None) => true,
            (LineCheck::Good, Some(statement)) => {
                let row = statement.body.row();
                !row.has_bad_label(statement)
                    && !row.lacks_field_label(statement)
                    && row.is_known
                    && row.is_well_formed
            },
        }
    }

    /// Whether nothing is wrong with these columns, which say this in the plain language, and no text of theirs ends before
    /// another at sign.
    pub(crate) fn stays_plain(&self, columns: &[u8; COLUMNS]) -> bool
        ensures { result ≡ (is_sound self.now && not (has_cut_constant columns.now)) }
    {
        self.is_sound() && !has_cut_constant(columns)
    }

    /// What these columns, which have capitals already, say in the wider language, of a line of this length.
    #[tactic(auto, unfolding(crate::specs::Language::wider_line))]
    fn wider(len: usize, columns: &[u8; COLUMNS]) -> Line
        ensures { result ≡ wider_line len columns.now }
    {
        let plain = Line::with_columns(len, columns);
        if plain.stays_plain(columns) {
            return plain;
        }
        Line::with_wide_columns(len, &plus_signs(columns))
    }

    /// What a line says by itself in the wider language.
    fn from_wide_bytes(line: &[u8]) -> Line
        ensures { result ≡ line_in languages.Ibm line.now }
    {
        let mut columns = columns_of(line);
        put_capitals(&mut columns);
        Line::wider(line.len(), &columns)
    }

    /// What a line says by itself in a language: its bytes, without the line feed that ends it.
    pub fn in_language(language: Language, line: &[u8]) -> Line
        ensures { result ≡ line_in language line.now }
    {
        // Each line is returned where it is made, so that it isn't copied.
        match language {
            Language::Plain => return Line::from_bytes(line),
            Language::Ibm => return Line::from_wide_bytes(line),
        }
    }
}
