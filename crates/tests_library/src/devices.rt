//! Cards, paper and the carriage.

use crate::trial::Trial;
use bcd_1401::Char;
use devices_1401::{CARD_COLUMNS, Card, Devices, Hole, MOST_HELD, PrintLine, Spaces};

/// Shows how many cards and lines there are, and where the carriage is.
pub fn show_counts(trial: &mut Trial, devices: &Devices) {
    let (hopper, stacker, paper) = (devices.hopper(), devices.stacker(), devices.paper());
    let (form, line) = (devices.form(), devices.line());
    trial.tell(format_args!(
        "hopper {hopper} stacker {stacker} paper {paper} form {form} line {line}"
    ));
}

/// Shows new devices, and what becomes of cards and lines.
pub fn show_devices(trial: &mut Trial) {
    match Devices::power_on(trial.alloc) {
        Ok(mut devices) => {
            show_counts(trial, &devices);
            pass_cards(trial, &mut devices);
            move_paper(trial, &mut devices);
            fill(trial, &mut devices);
        }
        Err(_) => trial.refuse("for devices"),
    }
}

/// A card with an A in each column.
fn card_of_a() -> Card {
    Card([Char::of_digit(1, 3); CARD_COLUMNS])
}

/// A line with an A at each place.
fn line_of_a() -> [Char; 132] {
    [Char::of_digit(1, 3); 132]
}

/// A card goes through the reader, and another one through the punch.
fn pass_cards(trial: &mut Trial, devices: &mut Devices) {
    let none = Card::from_columns(&[3_072; CARD_COLUMNS]);
    let is_same = Card::from_columns(&[2_304; CARD_COLUMNS]) == Some(card_of_a());
    let columns = card_of_a().columns() == [2_304; CARD_COLUMNS];
    trial.show("columns of a card", &(none, is_same, columns));
    trial.show(
        "an empty reader",
        &(devices.read().err(), devices.next_card()),
    );
    let given = (devices.feed(card_of_a()), devices.punch(card_of_a()));
    trial.show("feed, punch", &given);
    show_counts(trial, devices);
    let ends = [devices.next_card(), devices.last_punched()] == [Some(card_of_a()); 2];
    trial.show("the next card and the last one punched", &ends);
    let taken = (devices.read().ok(), devices.take_card())
        == (Some(card_of_a()), Some(card_of_a()));
    trial.show("read, take_card", &taken);
    trial.show("an empty stacker", &devices.take_card());
}

/// What each control leaves for the next print. A line is printed at channel 1.
fn move_paper(trial: &mut Trial, devices: &mut Devices) {
    trial.show("at channel 1", &devices.at_channel(1));
    for graphic in b"12M/STAI)" {
        if let Some(d) = Char::from_graphic(*graphic) {
            let given = devices.control(d);
            let left = (devices.pending_movement(), devices.at_channel(1));
            trial.tell(format_args!("control {}: {given:?} {left:?}", char::from(*graphic)));
        }
    }
    trial.show("print", &devices.print(line_of_a()));
    let printed = PrintLine {
        form: 1,
        line: 4,
        text: line_of_a(),
    };
    let is_same = devices.printed_line(0) == Some(printed);
    trial.show("the printed line", &(is_same, devices.printed_line(1)));
    let is_taken = devices.take_line().is_some();
    trial.show("take_line", &(is_taken, devices.take_line()));
    show_counts(trial, devices);
    let spaces = [
        Spaces::One.count(),
        Spaces::Two.count(),
        Spaces::Three.count(),
    ];
    let holes = [Hole::First.line(), Hole::Ninth.line(), Hole::Twelfth.line()];
    trial.show("spaces, holes", &(spaces, holes));
}

/// Fills the hopper, the stacker and the paper.
fn fill(trial: &mut Trial, devices: &mut Devices) {
    for _ in 0..MOST_HELD {
        let _fed = devices.feed(card_of_a());
        let _punched = devices.punch(card_of_a());
        let _printed = devices.print(line_of_a());
    }
    let (fed, punched) = (devices.feed(card_of_a()), devices.punch(card_of_a()));
    trial.show("one more", &(fed, punched, devices.print(line_of_a())));
    let (hopper, stacker, paper) = (devices.hopper(), devices.stacker(), devices.paper());
    trial.show("held", &[hopper, stacker, paper]);
}
