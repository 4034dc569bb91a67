//! Which picture a query asks for.
ghost use Rattle.std.specs.Prelude.{◌≡◌, option_copied};
ghost use Rattle.serving_page.specs.Asked.{asked_by, asked_in, fields_of, number_beyond};
ghost use Rattle.serving_page.specs.Asked.{room_in};
ghost use Rattle.serving_page.specs.Asked.{text_beyond, window_by};

use crate::pieces::cut_piece;
use core_1401::ADDRESSES;
use devices_1401::MOST_HELD;
use room_1401::Window;
use serving_http::number;

/// A picture that is asked for.
#[derive(Clone, Copy)]
pub struct Asked {
    /// What of the machine it shows.
    pub window: Window,
    /// The count of commands of the picture that the page has, if it has one of this window.
    pub after: Option<u32>,
}

/// The number after a name, if the field begins with the name.
#[tactic(auto, unfolding(crate::specs::Asked::number_beyond))]
fn number_beyond(name: &[u8], field: &[u8]) -> Option<u32>
    ensures { result ≡ number_beyond name.now field.now }
{
    if field.len() < name.len() {
        return None;
    }
    let (front, value) = field.split_at(name.len());
    if front == name { number(value) } else { None }
}

/// The window that the first two fields of a query say.
fn window_by(core: &[u8], paper: &[u8]) -> Option<Window>
    ensures { result ≡ window_by core.now paper.now }
{
    let core = number_beyond(b"core=", core)?;
    let paper = number_beyond(b"paper=", paper)?;
    if core < u32::from(ADDRESSES) && paper <= MOST_HELD as u32 {
        Some(Window {
            core: core as u16,
            paper: paper as u16,
        })
    } else {
        None
    }
}

/// The picture that a query asks for: `core=` and an address, `paper=` and the index of a printed line, then perhaps
/// `after=` and a count. `None` if the query says anything else.
#[tactic(auto, unfolding(crate::specs::Asked::asked_by))]
pub fn asked_by(query: &[u8]) -> Option<Asked>
    ensures { result ≡ asked_by query.now }
{
    let (core, rest) = cut_piece(b'&', query);
    let (paper, rest) = cut_piece(b'&', rest?);
    let window = window_by(core, paper);
    let Some(rest) = rest else {
        return Some(Asked {
            window: window?,
            after: None,
        });
    };
    match cut_piece(b'&', rest) {
        (after, None) => Some(Asked {
            window: window?,
            after: Some(number_beyond(b"after=", after)?),
        }),
        (_, Some(_)) => None,
    }
}

/// What comes after a name, if the field begins with the name.
fn text_beyond<'a>(name: &[u8], field: &'a [u8]) -> Option<&'a [u8]>
    ensures { option_copied result ≡ text_beyond name.now field.now }
{
    if field.starts_with(name) {
        Some(&field[name.len()..])
    } else {
        None
    }
}

/// The room that a query names first, `room=` and its name, if it does; and the picture that the rest asks for.
#[tactic(auto, unfolding(crate::specs::Asked::asked_by))]
pub(crate) fn asked_in(query: &[u8]) -> (Option<&[u8]>, Option<Asked>)
    ensures room { option_copied result.0 ≡ room_in (fields_of query.now) }
    ensures asked { result.1 ≡ asked_in (fields_of query.now) }
{
    let (first, rest) = cut_piece(b'&', query);
    let Some(room) = text_beyond(b"room=", first) else {
        return (None, asked_by(query));
    };
    match rest {
        Some(rest) => (Some(room), asked_by(rest)),
        None => (Some(room), None),
    }
}
