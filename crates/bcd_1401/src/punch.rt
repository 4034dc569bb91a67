//! The card code: the rows that are punched in a column for each character, both ways.
ghost use Rattle.std.specs.Prelude.{ℕ, ◌≡◌, ◌<◌, ◌==◌, Some, IfSome, length, position};
ghost use Rattle.bcd_1401.specs.CardCode.{column_of, columns};

use crate::character::Char;

/// The column of each character by its code, sixteen of each zone. Row 12 is 2048, row 11 1024, row 0 512, row 1 256,
/// and so on down to row 9, which is 1.
static COLUMNS: [u16; 64] = [
    0, 256, 128, 64, 32, 16, 8, 4, 2, 1, 512, 66, 34, 18, 10, 6, 130, 768, 640, 576, 544, 528, 520,
    516, 514, 513, 642, 578, 546, 530, 522, 518, 1024, 1280, 1152, 1088, 1056, 1040, 1032, 1028,
    1026, 1025, 1536, 1090, 1058, 1042, 1034, 1030, 2048, 2304, 2176, 2112, 2080, 2064, 2056, 2052,
    2050, 2049, 2560, 2114, 2082, 2066, 2058, 2054,
];

/// The table of columns.
#[tactic(auto, unfolding(crate::specs::CardCode::columns))]
fn column_table() -> &'static [u16]
    ensures table { result.now ≡ columns }
    ensures len { length columns ≡ 64 }
{
    &COLUMNS
}

/// The place of a column in the table.
fn column_place(table: &[u16], column: u16) -> Option<usize>
    ensures { result ≡ position (λ each. each == column) table.now }
{
    table.iter().position(|each| *each == column)
}

impl Char {
    /// The character that is punched as this column, a number of twelve bits; none for a column that is that of no
    /// character (A24-1403, "Character Code").
    pub fn from_punch(column: u16) -> Option<Char>
        ensures value { result ≡ position (λ each. each == column) columns }
        ensures column { IfSome result (λ char. column_of char ≡ column) }
        ensures each { (char : ℕ) → char < 64 → column_of char ≡ column → result ≡ Some char }
    {
        match column_place(column_table(), column) {
            Some(code) => Char::from_code(code as u8),
            None => None,
        }
    }

    /// The column that the character is punched as, a number of twelve bits (A24-1403, "Character Code").
    pub fn punch(self) -> u16
        ensures column { result ≡ column_of self }
        ensures range { result < 4096 }

        // No other character is punched as this column.
        ensures own { (char : ℕ) → char < 64 → column_of char ≡ result → char ≡ self }
    {
        column_table()[usize::from(self.code())]
    }
}
