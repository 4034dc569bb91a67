//! Characters and cells.

use crate::trial::Trial;
use bcd_1401::{CODES, Cell, Char};

/// Shows of each of these graphics its code, zone, digit, column and place in the collating order, and whether the code
/// and the column lead back to it.
pub fn show_characters(trial: &mut Trial) {
    for graphic in b" A!'0^95" {
        if let Some(char) = Char::from_graphic(*graphic) {
            let (code, column) = (char.code(), char.punch());
            let leads_back = [Char::from_code(code), Char::from_punch(column)] == [Some(char); 2];
            let parts = [code, char.zone(), char.digit_value(), char.order()];
            trial.tell(format_args!(
                "{} {parts:?} {column} {leads_back}",
                char::from(char.graphic())
            ));
        }
    }
    let none = (Char::from_punch(3_072), Char::from_code(CODES));
    trial.show("the column 3072, the code 64", &none);
    let five = Char::of_digit(5, 0);
    let zoned = [
        five.graphic(),
        five.with_zone(2).graphic(),
        Char::of_digit(5, 2).graphic(),
    ];
    trial.tell(format_args!(
        "a five without a zone and with zone 2: {}",
        zoned.escape_ascii()
    ));
    let Cell { char, mark } = Cell::BLANK;
    trial.show("a blank cell", &(char == Char::BLANK, mark));
}
