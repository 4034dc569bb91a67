//! Operations on fields.

ghost use Rattle.std.specs.Prelude.{◌<◌, length};

use crate::storage::{deposit, show_cells};
use crate::trial::Trial;
use core_1401::Core;
use fields_1401::{
    Done, FieldStop, add, add_within, clear_down, clear_marks, clear_marks_within, compare,
    compare_within, edit, load_chars, move_chars, move_chars_within, move_digit, move_digit_within,
    move_zone, move_zone_within, set_marks, set_marks_within, subtract, subtract_within, suppress,
    zero_add, zero_add_within, zero_subtract, zero_subtract_within,
};

/// An operation at an A and a B address. `ClearDown` has a B address alone.
pub enum Operation {
    Add,
    Subtract,
    ZeroAdd,
    ZeroSubtract,
    Compare,
    Edit,
    Suppress,
    MoveChars,
    LoadChars,
    MoveDigit,
    MoveZone,
    SetMarks,
    ClearMarks,
    ClearDown,
}

/// What is shown, the operation, its A and B address, what core storage has before it, and the places that are shown
/// after it: the first, and the one above the last.
pub type Row = (
    &'static str,
    Operation,
    (u16, u16),
    [&'static str; 2],
    (u16, u16),
);

/// Sums and stops, comparison and editing, moves and marks.
pub const ROWS: &[Row] = &[
    (
        "five and minus seven are minus two",
        Operation::Add,
        (700, 710),
        ["DEPOSIT 0700 ~P", "DEPOSIT 0709 ~05"],
        (709, 711),
    ),
    (
        "five less five is plus zero",
        Operation::Subtract,
        (700, 710),
        ["DEPOSIT 0700 ~5", "DEPOSIT 0710 ~E"],
        (710, 711),
    ),
    (
        "a sum of zero and minus twelve",
        Operation::ZeroAdd,
        (701, 713),
        ["DEPOSIT 0700 ~1K", "DEPOSIT 0710 ~0000"],
        (710, 714),
    ),
    (
        "zero less minus twelve",
        Operation::ZeroSubtract,
        (701, 713),
        ["DEPOSIT 0700 ~1K", "DEPOSIT 0710 ~0000"],
        (710, 714),
    ),
    (
        "a field without a word mark",
        Operation::Add,
        (700, 710),
        ["DEPOSIT 0700 5", "DEPOSIT 0710 5"],
        (710, 711),
    ),
    (
        "fields that overlap",
        Operation::Add,
        (711, 710),
        ["DEPOSIT 0700 5", "DEPOSIT 0709 ~123"],
        (709, 712),
    ),
    (
        "a longer field is higher",
        Operation::Compare,
        (701, 712),
        ["DEPOSIT 0700 ~12", "DEPOSIT 0710 ~012"],
        (710, 713),
    ),
    (
        "dollars and cents are edited",
        Operation::Edit,
        (707, 732),
        ["DEPOSIT 0700 ~00257426", "DEPOSIT 0720 ~   ,  0.  &CR"],
        (720, 733),
    ),
    (
        "leading zeros are suppressed",
        Operation::Suppress,
        (704, 724),
        ["DEPOSIT 0700 ~0012P", "DEPOSIT 0720      "],
        (720, 725),
    ),
    (
        "a move over itself repeats one character",
        Operation::MoveChars,
        (510, 509),
        ["DEPOSIT 0500 ~ABCDEFGHIJX", "DEPOSIT 0600 5"],
        (500, 511),
    ),
    (
        "a load takes the inner word marks",
        Operation::LoadChars,
        (501, 511),
        ["DEPOSIT 0500 ~AB", "DEPOSIT 0509 ~1~2~3"],
        (509, 512),
    ),
    (
        "a digit is moved",
        Operation::MoveDigit,
        (500, 510),
        ["DEPOSIT 0500 L", "DEPOSIT 0510 AA"],
        (510, 512),
    ),
    (
        "a zone is moved",
        Operation::MoveZone,
        (500, 511),
        ["DEPOSIT 0500 L", "DEPOSIT 0510 CA"],
        (510, 512),
    ),
    (
        "two word marks are set",
        Operation::SetMarks,
        (500, 511),
        ["DEPOSIT 0500 AB", "DEPOSIT 0510 CD"],
        (510, 512),
    ),
    (
        "two word marks are cleared",
        Operation::ClearMarks,
        (500, 511),
        ["DEPOSIT 0500 ~AB", "DEPOSIT 0510 C~D"],
        (510, 512),
    ),
    (
        "all is cleared down to the hundred",
        Operation::ClearDown,
        (0, 799),
        ["DEPOSIT 0600 5", "DEPOSIT 0798 ~XY~Z"],
        (798, 801),
    ),
];

/// Makes the call.
fn call(operation: &Operation, core: &mut Core, a: u16, b: u16) -> Result<Done, FieldStop>
    requires { (a < 16000) × (b < 16000) }
{
    match operation {
        Operation::Add => add(core, a, b),
        Operation::Subtract => subtract(core, a, b),
        Operation::ZeroAdd => zero_add(core, a, b),
        Operation::ZeroSubtract => zero_subtract(core, a, b),
        Operation::Compare => compare(core, a, b),
        Operation::Edit => edit(core, a, b),
        Operation::Suppress => suppress(core, a, b),
        Operation::MoveChars => move_chars(core, a, b),
        Operation::LoadChars => load_chars(core, a, b),
        Operation::MoveDigit => move_digit(core, a, b),
        Operation::MoveZone => move_zone(core, a, b),
        Operation::SetMarks => set_marks(core, a, b),
        Operation::ClearMarks => clear_marks(core, a, b),
        Operation::ClearDown => clear_down(core, b),
    }
}

/// Makes the call that doesn't ask whether both places are in core, if there is one.
fn call_within(operation: &Operation, core: &mut Core, a: u16, b: u16) -> Result<Done, FieldStop>
    requires addresses { (a < 16000) × (b < 16000) }
    requires within { (a < length core.old) × (b < length core.old) }
{
    match operation {
        Operation::Add => add_within(core, a, b),
        Operation::Subtract => subtract_within(core, a, b),
        Operation::ZeroAdd => zero_add_within(core, a, b),
        Operation::ZeroSubtract => zero_subtract_within(core, a, b),
        Operation::Compare => compare_within(core, a, b),
        Operation::MoveChars => move_chars_within(core, a, b),
        Operation::MoveDigit => Ok(move_digit_within(core, a, b)),
        Operation::MoveZone => Ok(move_zone_within(core, a, b)),
        Operation::SetMarks => Ok(set_marks_within(core, a, b)),
        Operation::ClearMarks => Ok(clear_marks_within(core, a, b)),
        Operation::Edit | Operation::Suppress | Operation::LoadChars | Operation::ClearDown => {
            call(operation, core, a, b)
        }
    }
}

/// Makes one of the two calls of a row in new core storage, and shows what it leaves.
pub fn make_call(trial: &mut Trial, core: &mut Core, row: &Row, is_within: bool) {
    let (what, operation, (a, b), [one, two], (from, to)) = row;
    deposit(core, one);
    deposit(core, two);
    if *a < 16_000 && *b < 16_000 && core.in_core(*a) && core.in_core(*b) {
        let given = if is_within {
            call_within(operation, core, *a, *b)
        } else {
            call(operation, core, *a, *b)
        };
        trial.show(what, &given);
    }
    show_cells(trial, core, *from, *to);
}
