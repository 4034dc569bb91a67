//! The name of a served room, which no other room has.
ghost use Rattle.std.specs.Prelude.{◌≡◌, length, List, ℕ, IfOk};
ghost use Rattle.serving_http.specs.Names.{name_of};

use std::io;
use std::random::RandomSource;

/// How many characters a name has.
const NAME_LEN: usize = 16;

/// The characters of names.
const DIGITS: &[u8; 16] = b"0123456789ABCDEF";

/// Draws the bytes that pick the characters of names.
pub trait Lots {
    // These bytes were drawn.
    ghost were_drawn: { List ℕ → Type 0 };

    /// A byte for each character.
    ///
    /// # Errors
    ///
    /// If none are drawn.
    fn draw(&self) -> io::Result<[u8; NAME_LEN]>
        ensures { IfOk result were_drawn };
}

/// Random bytes. Nothing is known about them.
impl<R: RandomSource> Lots for R {
    ghost were_drawn = { λ _. Unit {0} };

    fn draw(&self) -> io::Result<[u8; NAME_LEN]> {
        let mut bytes = [0; NAME_LEN];
        self.fill_bytes(&mut bytes)?;
        Ok(bytes)
    }
}

/// The name of a room: 64 random bits as 16 hexadecimal digits. So a page knows the room that it has seen from the
/// next one at the same address.
#[derive(Drop)]
pub struct RoomName {
    digits: [u8; NAME_LEN],
}

/// The name that bytes pick.
fn name_of(bytes: [u8; NAME_LEN]) -> RoomName
    ensures { result.digits ≡ name_of bytes }
{
    let mut digits = bytes;
    for digit in digits.iter_mut() {
        *digit = DIGITS[usize::from(*digit % 16)];
    }
    RoomName { digits }
}

impl RoomName {
    /// The name that bytes pick which are drawn for it.
    ///
    /// # Errors
    ///
    /// If none are drawn.
    pub fn new<L: Lots>(lots: &L) -> io::Result<RoomName>
        ensures { IfOk result (λ name. (bytes : List ℕ) × L.were_drawn bytes × (name.digits ≡ name_of bytes)) }
    {
        let bytes = lots.draw()?;
        Ok(name_of(bytes))
    }

    /// Its characters.
    pub fn as_slice(&self) -> &[u8]
        ensures value { result.now ≡ self.now.digits }
        ensures count { length result.now ≡ 16 }
    {
        self.digits.as_slice()
    }
}
