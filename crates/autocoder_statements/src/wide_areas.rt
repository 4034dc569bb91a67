//! The options of DA, and fields of areas in the wider language.
ghost use Rattle.std.specs.Prelude.{◌≡◌};
ghost use Rattle.std.specs.Option.{option_map};
ghost use Rattle.autocoder_statements.specs.Numbers.{number_between};
ghost use Rattle.autocoder_statements.specs.WideAreas.{option_and, register_and, options_and, areas_with};
ghost use Rattle.autocoder_statements.specs.WideAreas.{wide_areas_of};
ghost use Rattle.autocoder_statements.specs.WideAreas.{place_alone, wide_span_of};

use crate::numbers::number_between;
use crate::operands::{is_ended, lone_operand, split_operand};
use crate::statement::{AREA_LENGTH, Areas, Span, areas_of, span_of};

/// The options of DA.
#[derive(Clone, Copy)]
pub struct AreaOptions {
    /// G: a group mark follows the last area.
    pub has_group_mark: bool,
    /// A record mark: one follows each area.
    pub has_record_marks: bool,
    /// C: the areas are cleared, as they are without it.
    pub is_cleared: bool,
    /// X1, X2 or X3, by its number: the index register of the symbols of the fields; 0 for none.
    pub index: u8,
    /// 0: the symbols of the fields count from 000.
    pub counts_from_zero: bool,
}

impl AreaOptions {
    /// None of them.
    const NONE: AreaOptions = AreaOptions {
        has_group_mark: false,
        has_record_marks: false,
        is_cleared: false,
        index: 0,
        counts_from_zero: false,
    };

    /// These, and the one of this letter, of a record mark, or of a zero; nothing if it is unknown, or among them already.
    fn with(self, letter: u8) -> Option<AreaOptions>
        ensures { result ≡ option_and self letter }
    {
        match letter {
            b'G' if !self.has_group_mark => Some(AreaOptions {
                has_group_mark: true,
                ..self
            }),
            b'\'' if !self.has_record_marks => Some(AreaOptions {
                has_record_marks: true,
                ..self
            }),
            b'C' if !self.is_cleared => Some(AreaOptions {
                is_cleared: true,
                ..self
            }),
            b'0' if !self.counts_from_zero => Some(AreaOptions {
                counts_from_zero: true,
                ..self
            }),
            _ => None,
        }
    }

    /// These, and X1, X2 or X3, by its digit; nothing if it is none of them, or one is among them already.
    fn with_register(self, digit: u8) -> Option<AreaOptions>
        ensures { result ≡ register_and self digit }
    {
        match digit {
            b'1'..=b'3' if self.index == 0 => Some(AreaOptions {
                index: digit - b'0',
                ..self
            }),
            _ => None,
        }
    }

    /// These, and those that a text has, each after a comma; nothing if it has something else.
    fn and(self, text: &[u8]) -> Option<AreaOptions>
        ensures { result ≡ options_and self text.now }
    {
        if is_ended(text) {
            return Some(self);
        }
        let [parting, letter, more @ ..] = text else {
            return None;
        };
        if *parting != b',' {
            return None;
        }
        if *letter != b'X' {
            let these = self.with(*letter)?;
            return these.and(more);
        }
        let [digit, beyond @ ..] = more else {
            return None;
        };
        let those = self.with_register(*digit)?;
        those.and(beyond)
    }
}

impl Areas {
    /// The areas with these options.
    fn with_options(self, options: AreaOptions) -> Areas
        ensures { result ≡ areas_with self options }
    {
        Areas {
            has_group_mark: options.has_group_mark,
            has_record_marks: options.has_record_marks,
            index: options.index,
            counts_from_zero: options.counts_from_zero,
            ..self
        }
    }
}

/// The areas that the columns for operands ask for, with their options.
pub(crate) fn wide_areas_of(columns: &[u8]) -> Option<Areas>
    ensures { result ≡ wide_areas_of columns.now }
{
    let (word, beyond) = split_operand(columns);
    let areas = areas_of(word)?;
    let options = AreaOptions::NONE.and(beyond)?;
    Some(areas.with_options(options))
}

/// The place that a word says by itself, if it says one: it sets no mark.
fn place_alone(word: &[u8]) -> Option<Span>
    ensures { result ≡ option_map place_alone (number_between 1 999 word.now) }
{
    let place = number_between(1, AREA_LENGTH, word)?;
    Some(Span {
        first: place as u16,
        last: place as u16,
        is_marked: false,
    })
}

/// The places of a field that the columns for operands say, or its last place alone.
pub(crate) fn wide_span_of(columns: &[u8]) -> Option<Span>
    ensures { result ≡ wide_span_of columns.now }
{
    match span_of(columns) {
        Some(span) => Some(span),
        None => place_alone(lone_operand(columns)),
    }
}
