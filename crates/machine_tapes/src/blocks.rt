//! The bytes of a record, put where there is room for them.
ghost use Rattle.std.specs.Prelude.{◌≡◌, ◌-◌, ◌<◌, ◌==◌, true, length, drop, map, slice_index, if◌then◌else◌};
ghost use Rattle.std.specs.List.{prefix_len};
ghost use Rattle.machine_tapes.specs.Held.{begins, goes_on, characters_of};

use crate::records::FIRST;
use bcd_1401::{CODES, Char};

/// Puts the bytes of the record of these characters, with one of them for each blank.
pub(crate) fn put_chars(places: &mut [u8], characters: &[Char], blank: Char)
    requires some { 0 < length characters.now }
    requires room { length places.old ≡ length characters.now }
    ensures size { length places.new ≡ length characters.now }
    ensures value { characters_of places.new ≡ map (λ char. if char == 0 then blank else char) characters.now }
    ensures first { begins (slice_index places.new 0) ≡ true }
    ensures others { prefix_len goes_on (drop 1 places.new) ≡ length characters.now - 1 }
{
    let begun = with_blank(characters[0], blank);
    let code = begun.code();
    for i in 0..characters.len() {
        let char = with_blank(characters[i], blank);
        places[i] = char.code();
    }
    places[0] = FIRST + code;
}

/// A character, or another one if it is the blank.
fn with_blank(char: Char, blank: Char) -> Char
    ensures { result ≡ (if char == 0 then blank else char) }
{
    if char.code() == 0 { blank } else { char }
}

/// Puts the bytes of the record of these bytes' characters.
pub(crate) fn put_codes(places: &mut [u8], bytes: &[u8])
    requires some { 0 < length bytes.now }
    requires room { length places.old ≡ length bytes.now }
    ensures size { length places.new ≡ length bytes.now }
    ensures value { characters_of places.new ≡ characters_of bytes.now }
    ensures first { begins (slice_index places.new 0) ≡ true }
    ensures others { prefix_len goes_on (drop 1 places.new) ≡ length bytes.now - 1 }
{
    for i in 0..bytes.len() {
        places[i] = bytes[i] % CODES;
    }
    places[0] = FIRST + bytes[0] % CODES;
}
