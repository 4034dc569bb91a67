//! Up to eight operands of a kind.
ghost use Rattle.std.specs.Prelude.{◌≡◌};
ghost use Rattle.operate_orders.specs.List.{field, fields_in, numbers_in};

use crate::fault::OrderFault;
use crate::operands::{count_operand, place_operand};
use crate::orders::MOST_LISTED;
use crate::parts::{is_end, split_operand};
use crate::places::Place;
use crate::words::Keyword;

/// The field that a word is, none where there is no word.
#[tactic(auto, unfolding(crate::specs::List::field))]
fn field(word: &[u8]) -> Result<Option<Place>, OrderFault>
    ensures { result ≡ field word.now }
{
    if word.is_empty() {
        return Ok(None);
    }
    let place = place_operand(Keyword::Print, word)?;
    Ok(Some(place))
}

/// The fields that follow, up to eight.
///
/// # Errors
///
/// `Place` if a word is no address, `Usage` if there are more words.
#[tactic(auto, unfolding(crate::specs::List::fields_in))]
pub(crate) fn fields(operands: &[u8]) -> Result<[Option<Place>; MOST_LISTED], OrderFault>
    ensures { result ≡ fields_in operands.now }
{
    let mut fields = [None; MOST_LISTED];
    let mut rest = operands;
    for i in 0..MOST_LISTED {
        let (word, beyond) = split_operand(rest);
        let found = field(word)?;
        fields[i] = found;
        rest = beyond;
    }
    if is_end(rest) {
        Ok(fields)
    } else {
        Err(OrderFault::Usage(Keyword::Print))
    }
}

/// The numbers from 1 on that follow, up to eight.
///
/// # Errors
///
/// `Digits` or `Count` if a word is no such number, `Usage` if there are more words.
#[tactic(auto, unfolding(crate::specs::List::numbers_in))]
pub(crate) fn numbers(operands: &[u8]) -> Result<[Option<u32>; MOST_LISTED], OrderFault>
    ensures { result ≡ numbers_in operands.now }
{
    let mut numbers = [None; MOST_LISTED];
    let mut rest = operands;
    for i in 0..MOST_LISTED {
        let (word, beyond) = split_operand(rest);
        let found = count_operand(word)?;
        numbers[i] = found;
        rest = beyond;
    }
    if is_end(rest) {
        Ok(numbers)
    } else {
        Err(OrderFault::Usage(Keyword::Delete))
    }
}
