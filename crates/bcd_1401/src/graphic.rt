//! The graphic of each character, both ways.
ghost use Rattle.std.specs.Prelude.{◌≡◌, ◌==◌, Some, slice_index, length, position};
ghost use Rattle.bcd_1401.specs.Graphic.{graphics};

use crate::character::Char;

/// The graphics by code, sixteen of each zone.
static GRAPHICS: [u8; 64] = *b" 1234567890#@:>(^/STUVWXYZ',%=\\+-JKLMNOPQR!$*];_&ABCDEFGHI?.)[<\"";

/// The table of graphics.
#[tactic(auto, unfolding(crate::specs::Graphic::graphics))]
fn table() -> &'static [u8]
    ensures table { result.now ≡ graphics }
    ensures len { length graphics ≡ 64 }
{
    &GRAPHICS
}

/// The place of a graphic in the table.
fn place_in(table: &[u8], graphic: u8) -> Option<usize>
    ensures { result ≡ position (λ each. each == graphic) table.now }
{
    table.iter().position(|each| *each == graphic)
}

impl Char {
    /// The character with this graphic, an ASCII byte; none for a byte that is the graphic of no character.
    pub fn from_graphic(graphic: u8) -> Option<Char>
        ensures { result ≡ position (λ each. each == graphic) graphics }
    {
        match place_in(table(), graphic) {
            Some(code) => Char::from_code(code as u8),
            None => None,
        }
    }

    /// The graphic, an ASCII byte.
    pub fn graphic(self) -> u8
        ensures entry { result ≡ slice_index graphics self }

        // No other character has this graphic.
        ensures own { position (λ each. each == slice_index graphics self) graphics ≡ Some self }
    {
        table()[usize::from(self.code())]
    }
}
