//! Tape units as instructions name them.
ghost use Rattle.std.specs.Prelude.{◌≡◌};
ghost use Rattle.machine_tables.specs.TapeUnit.{unit_named};

/// How many tape units there are.
pub const TAPE_UNITS: u8 = 6;

/// A tape unit as an instruction names it (A24-1403, "Magnetic Tape", from memory).
#[derive(Clone, Copy, Debug, PartialEq, Eq)]
pub struct TapeUnit {
    /// Its number, 1 to 6.
    pub number: u8,
    /// Whether what is read and written has odd parity: `%B1` and not `%U1`.
    pub is_odd: bool,
}

/// The unit of a name of these graphics: `%U1` to `%U6`, or `%B1` to `%B6`. `None` if it is none.
pub fn tape_unit_named(first: u8, second: u8, third: u8) -> Option<TapeUnit>
    ensures { result ≡ unit_named first second third }
{
    if first == b'%' && (second == b'U' || second == b'B') && b'1' <= third && third <= b'6' {
        return Some(TapeUnit {
            number: third - b'0',
            is_odd: second == b'B',
        });
    }
    None
}
