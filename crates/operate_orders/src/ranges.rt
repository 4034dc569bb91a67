//! Ranges of places.
ghost use Rattle.std.specs.Prelude.{◌≡◌};
ghost use Rattle.operate_orders.specs.Range.{area_named, at_number, lone, range_by_minus, range_in};

use crate::parts::{beyond_first, byte_at, is_same, numeral, split_before};
use crate::places::{Base, Place, read_place};

/// The areas of the card reader, the card punch and the printer (A24-1403, "Storage Areas").
#[derive(Clone, Copy)]
pub enum Area {
    /// `read`: places 1 to 80.
    Read,
    /// `punch`: places 101 to 180.
    Punch,
    /// `print`: places 201 to 332.
    Print,
}

/// A range of places.
#[derive(Clone, Copy)]
pub enum Range {
    /// `read`, `punch` or `print`.
    Area(Area),
    /// `400..410`, or `400-410` between two numbers: from the first place to the last.
    Between {
        /// The first.
        first: Place,
        /// The last.
        last: Place,
    },
    /// `400/11`: so many places.
    Counted {
        /// The first.
        first: Place,
        /// How many, from 1 on.
        count: u32,
    },
    /// A place alone; a label stands for all of its places.
    At(Place),
}

/// The area with this name.
#[tactic(auto, unfolding(crate::specs::Range::area_named))]
fn area_named(word: &[u8]) -> Option<Area>
    ensures { result ≡ area_named word.now }
{
    if is_same(word, b"READ") {
        Some(Area::Read)
    } else if is_same(word, b"PUNCH") {
        Some(Area::Punch)
    } else if is_same(word, b"PRINT") {
        Some(Area::Print)
    } else {
        None
    }
}

/// The place that a number is.
fn at_number(number: u32) -> Place
    ensures { result ≡ at_number number }
{
    Place {
        base: Base::Number(number),
        adjustments: [None, None, None],
    }
}

/// A place alone.
#[tactic(auto, unfolding(crate::specs::Range::lone))]
fn lone(word: &[u8]) -> Option<Range>
    ensures { result ≡ lone word.now }
{
    match read_place(word) {
        Some(place) => Some(Range::At(place)),
        None => None,
    }
}

/// Two numbers with a minus between them, or a place alone.
#[tactic(auto, unfolding(crate::specs::Range::range_by_minus, crate::specs::Range::numbers_between))]
fn range_by_minus(word: &[u8]) -> Option<Range>
    ensures { result ≡ range_by_minus word.now }
{
    let (first, last) = split_before(word, b'-');
    let Some(first) = numeral(first) else {
        return lone(word);
    };
    let Some(last) = numeral(beyond_first(last)) else {
        return lone(word);
    };
    Some(Range::Between {
        first: at_number(first),
        last: at_number(last),
    })
}

/// The range that a word is, in capitals.
#[tactic(auto, unfolding(crate::specs::Range::range_in, crate::specs::Range::range_by_dots, crate::specs::Range::range_by_slash, crate::specs::Range::between, crate::specs::Range::counted))]
pub(crate) fn read_range(word: &[u8]) -> Option<Range>
    ensures { result ≡ range_in word.now }
{
    if let Some(area) = area_named(word) {
        return Some(Range::Area(area));
    }
    let (first, dots) = split_before(word, b'.');
    if !dots.is_empty() {
        if byte_at(dots, 1) != b'.' {
            return None;
        }
        let first = read_place(first)?;
        let last = read_place(beyond_first(beyond_first(dots)))?;
        return Some(Range::Between { first, last });
    }
    let (first, count) = split_before(word, b'/');
    if count.is_empty() {
        return range_by_minus(word);
    }
    let first = read_place(first)?;
    let count = numeral(beyond_first(count))?;
    if count == 0 {
        None
    } else {
        Some(Range::Counted { first, count })
    }
}
