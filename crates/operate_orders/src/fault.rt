//! Why a line says nothing.
ghost use Rattle.std.specs.Prelude.{◌≡◌, ◌++◌, OnOk};
ghost use Rattle.operate_orders.specs.FaultText.{byte_text, fault_text};

use crate::text::Text;
use crate::words::Keyword;
use machine_notation::put_named_digits;
use std::alloc::AllocError;

/// Why a line says nothing: its first fault from left to right. Each text is as it is typed.
#[derive(Clone, Copy)]
pub enum OrderFault {
    /// The line has more than 200 bytes.
    Length,
    /// A byte is none of a line: a tab, a NUL, byte 255.
    Byte {
        /// The byte.
        byte: u8,
        /// Its column, from 1 on.
        column: u8,
    },
    /// A word begins no order.
    Word(Text),
    /// An operand is missing, or is one too many, or another was wanted.
    Usage(Keyword),
    /// An operand is no number from 1 on.
    Count(Text),
    /// A number has more than nine digits.
    Digits(Text),
    /// An operand is no address.
    Place(Text),
    /// An operand is no range of places.
    Range(Text),
    /// A value is no number.
    Number(Text),
    /// A byte of a text is no graphic.
    Graphic,
    /// A deposit has more than 40 cells.
    Cells,
    /// A card has more than 80 columns.
    Card,
}

/// Adds what is typed, and what is said of it.
fn put_said(text: &mut Vec<u8>, word: &Text, said: &[u8]) -> Result<(), AllocError>
    ensures { OnOk result (text.new.items ≡ text.old.items ++ word.now ++ said.now) }
{
    text.extend_from_slice(word.as_slice())?;
    text.extend_from_slice(said)
}

/// Adds the text of a byte that is no character.
#[tactic(auto, unfolding(crate::specs::FaultText::byte_text))]
fn put_byte(text: &mut Vec<u8>, byte: u8, column: u8) -> Result<(), AllocError>
    ensures { OnOk result (text.new.items ≡ text.old.items ++ byte_text byte column) }
{
    put_named_digits(text, b"byte ", 1, byte as u64)?;
    put_named_digits(text, b" in column ", 1, column as u64)?;
    text.extend_from_slice(b" is no character")?;
    Ok(())
}

/// Adds the text of a fault, which follows a question mark.
///
/// # Errors
///
/// If the memory for the text is refused. Some of the text may have been added by then.
#[tactic(auto, unfolding(crate::specs::FaultText::fault_text))]
pub fn put_fault(text: &mut Vec<u8>, fault: &OrderFault) -> Result<(), AllocError>
    ensures { OnOk result (text.new.items ≡ text.old.items ++ fault_text fault.now) }
{
    match fault {
        OrderFault::Length => text.extend_from_slice(b"a line has at most 200 bytes"),
        OrderFault::Byte { byte, column } => put_byte(text, *byte, *column),
        OrderFault::Word(word) => put_said(text, word, b" is no word here"),
        OrderFault::Usage(keyword) => text.extend_from_slice(keyword.row().usage),
        OrderFault::Count(word) => put_said(text, word, b" is no number from 1 on"),
        OrderFault::Digits(word) => put_said(text, word, b" has more than nine digits"),
        OrderFault::Place(word) => put_said(text, word, b" is no address"),
        OrderFault::Range(word) => put_said(text, word, b" is no range of places"),
        OrderFault::Number(word) => put_said(text, word, b" is no number"),
        OrderFault::Graphic => text.extend_from_slice(b"a byte is no graphic"),
        OrderFault::Cells => text.extend_from_slice(b"a deposit has at most 40 cells"),
        OrderFault::Card => text.extend_from_slice(b"a card has 80 columns"),
    }
}
