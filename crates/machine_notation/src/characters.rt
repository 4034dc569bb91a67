//! Characters by their graphics.
ghost use Rattle.std.specs.Prelude.{◌≡◌, ◌≤◌, ◌==◌, ◌++◌, length, map, Some, OnOk};
ghost use Rattle.std.specs.List.{suffix_len};
ghost use Rattle.machine_notation.specs.Characters.{blank_code, chars_of, graphics_of, trimmed};

use bcd_1401::Char;
use std::alloc::AllocError;

/// How many blanks characters end with.
fn blanks_at_end(chars: &[Char]) -> usize
    ensures value { result ≡ suffix_len (λ char. char == blank_code) chars.now }
    ensures bound { result ≤ length chars.now }
{
    chars
        .iter()
        .rev()
        .take_while(|char| **char == Char::BLANK)
        .count()
}

/// Characters without the blanks at their end.
#[tactic(auto, unfolding(crate::specs::Characters::trimmed))]
fn trimmed(chars: &[Char]) -> &[Char]
    ensures { result.now ≡ trimmed chars.now }
{
    &chars[..chars.len() - blanks_at_end(chars)]
}

/// Adds characters by their graphics, one after another.
fn put_each(text: &mut Vec<u8>, chars: &[Char]) -> Result<(), AllocError>
    ensures text { OnOk result (text.new.items ≡ text.old.items ++ graphics_of chars.now) }
    ensures again { OnOk result (chars_of (graphics_of chars.now) ≡ map Some chars.now) }
{
    for char in chars {
        text.push(char.graphic())?;
    }
    Ok(())
}

/// Adds characters by their graphics, without the blanks at their end, as those of a card or a printed line are shown.
///
/// # Errors
///
/// If the memory for the text is refused. Some of the text may have been added then.
pub fn put_characters(text: &mut Vec<u8>, chars: &[Char]) -> Result<(), AllocError>
    ensures text { OnOk result (text.new.items ≡ text.old.items ++ graphics_of (trimmed chars.now)) }

    // What is added is read as these characters.
    ensures again { OnOk result (chars_of (graphics_of (trimmed chars.now)) ≡ map Some (trimmed chars.now)) }
{
    put_each(text, trimmed(chars))
}
