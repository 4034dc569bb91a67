//! A text cut at each byte that parts it.
ghost use Rattle.std.specs.Prelude.{◌≡◌, ◌<◌, ◌≤◌, ◌∷◌, length, option_copied, IfSome};
ghost use Rattle.std.specs.List.{position_or_len};
ghost use Rattle.serving_page.specs.Pieces.{is_byte, pieces_in, pieces_of};

/// How many bytes the first piece of a text has.
fn first_len(parting: u8, text: &[u8]) -> usize
    ensures value { result ≡ position_or_len (is_byte parting) text.now }
    ensures bound { result ≤ length text.now }
{
    text.iter().take_while(|byte| **byte != parting).count()
}

/// The first piece of a text, and what comes after the byte that ends it, if there is one.
#[tactic(auto, using(crate::proofs::PiecesLemmas::last_piece))]
pub(crate) fn cut_piece(parting: u8, text: &[u8]) -> (&[u8], Option<&[u8]>)
    ensures pieces { pieces_of parting text.now ≡ result.0.now ∷ pieces_in parting (option_copied result.1) }
    ensures shorter { IfSome (option_copied result.1) (λ rest. length rest < length text.now) }
{
    let len = first_len(parting, text);
    if len == text.len() {
        return (text, None);
    }
    (&text[..len], Some(&text[len + 1..]))
}
