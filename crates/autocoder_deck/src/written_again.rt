//! Whether the assembler makes the cells of an instruction again.
ghost use Rattle.std.specs.Prelude.{◌≡◌, ◌==◌, ◌∷◌, [], length};
ghost use Rattle.std.specs.List.{list_any};
ghost use Rattle.autocoder_deck.specs.Assembled.{is_spelled, is_spelling};
ghost use Rattle.autocoder_deck.specs.WrittenAgain.{has_form, is_no_operation, is_write, is_written_again};
ghost use Rattle.machine_notation.specs.InstructionText.{d_in};

use bcd_1401::{Cell, Char};
use core_1401::{decode, encode};

/// Whether three characters are the assembler's spelling of the address that they spell.
#[tactic(auto, using(crate::proofs::SpellingLemmas::is_spelling_by))]
fn is_spelling(h: Char, t: Char, u: Char) -> bool
    ensures { result ≡ is_spelling h t u }
{
    let (value, index) = decode([h, t, u]);
    let [hundreds, tens, units] = encode(value);
    hundreds == h && tens.with_zone(index) == t && units == u
}

/// Whether the cells after an operation are up to two addresses in that spelling, and a d-character or none.
fn is_spelled(beyond: &[Cell]) -> bool
    ensures { result ≡ is_spelled beyond.now }
{
    match beyond {
        [] | [_] => true,
        [_, _] => false,
        [h, t, u, more @ ..] => is_spelling(h.char, t.char, u.char) && is_spelled(more),
    }
}

/// The graphic of the d-character of an instruction, by the cells after its operation, if it has one.
fn d_in(beyond: &[Cell]) -> Option<u8>
    ensures { result ≡ d_in beyond.now }
{
    match beyond {
        [] | [_, _] => None,
        [d] => Some(d.char.graphic()),
        [_, _, _, more @ ..] => d_in(more),
    }
}

/// Whether a write of a line may have these characters after its operation.
fn is_write(beyond: &[Cell]) -> bool
    ensures { result ≡ is_write beyond.now }
{
    match d_in(beyond) {
        Some(d) => d == b')',
        None => true,
    }
}

/// Whether a no operation may have this many characters more.
fn is_no_operation(more: usize) -> bool
    ensures { result ≡ is_no_operation more }
{
    more == 0 || more == 3 || more == 6 || more == 7
}

/// Whether a language of the assembler has a form of an operation with these characters after it.
fn has_form(operation: u8, beyond: &[Cell]) -> bool
    ensures { result ≡ has_form operation beyond.now }
{
    if operation == b'2' {
        return is_write(beyond);
    }
    if operation == b'N' {
        return is_no_operation(beyond.len());
    }
    true
}

/// Whether the assembler makes the same cells of an instruction's text, if the machine has the instruction.
pub(crate) fn is_written_again(cells: &[Cell]) -> bool
    ensures { result ≡ is_written_again cells.now }
{
    let [operation, beyond @ ..] = cells else {
        return false;
    };
    is_spelled(beyond) && has_form(operation.char.graphic(), beyond)
}
