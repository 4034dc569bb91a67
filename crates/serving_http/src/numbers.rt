//! Numbers in what a request says.
ghost use Rattle.std.specs.Prelude.{◌≡◌};
ghost use Rattle.serving_http.specs.Numbers.{number_of};

use machine_notation::read_digits;

/// The most digits of a number in a query or a field.
const MOST_DIGITS: usize = 9;

/// The number that a text is: one to nine digits.
#[tactic(auto, unfolding(crate::specs::Numbers::number_of))]
pub fn number(text: &[u8]) -> Option<u32>
    ensures { result ≡ number_of text.now }
{
    if text.is_empty() || text.len() > MOST_DIGITS {
        return None;
    }
    read_digits(text)
}
