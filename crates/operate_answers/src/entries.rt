//! The last commands that were recorded, and the cards that are still in the hopper.

use crate::counted::put_count;
use bcd_1401::Char;
use bytes_text::Text;
use console_text::{put_command, reply_text};
use devices_1401::{CARD_COLUMNS, Card, Devices};
use machine_commands::{Answer, Command};
use operate_views::{put_hopper, put_stacker};
use room_alone::Entry;
use std::alloc::Global;

/// How many commands are shown if no number says how many.
const LAST_COMMANDS: usize = 10;

/// The columns of a command.
const COMMAND_COLUMNS: usize = 29;

/// How many cards of the hopper are shown.
const CARDS_SHOWN: usize = 5;

/// Adds the last entries of a journal, a line each: its number, the command and the answer.
pub(crate) fn put_journal(alloc: Global, text: &mut Text, journal: &[Entry], most: Option<u32>) {
    let most = match most {
        Some(most) => most as usize,
        None => LAST_COMMANDS,
    };
    if journal.is_empty() {
        text.put(b"no command is recorded\n");
        return;
    }
    for i in journal.len().saturating_sub(most)..journal.len() {
        let entry = &journal[i];
        text.put_number(1, i as u64 + 1);
        text.put(b"  ");
        let from = text.len();
        let mut bytes = text.take();
        let added = put_command(&mut bytes, &entry.command);
        text.put_back(bytes, added);
        text.pad(from, COMMAND_COLUMNS);
        text.put(b"  ");
        match reply_text(alloc, &entry.answer) {
            Ok(answer) => text.put(answer.as_slice()),
            Err(_) => text.fail(),
        }
        text.put_byte(b'\n');
    }
}

/// Adds the cards in the hopper, the first of them shown; how many are in hand, if some are; and those in the stacker.
pub(crate) fn put_cards(text: &mut Text, devices: &Devices, journal: &[Entry], hand: usize) {
    // Those in the hopper are the last that were fed, and they are read in the order in which they were fed.
    let mut first = [Card([Char::BLANK; CARD_COLUMNS]); CARDS_SHOWN];
    let mut left = usize::from(devices.hopper());
    for i in 0..journal.len() {
        if left == 0 {
            break;
        }
        let entry = &journal[journal.len() - 1 - i];
        if let (Command::Feed { card }, Answer::Done) = (entry.command, entry.answer) {
            left -= 1;
            if left < CARDS_SHOWN {
                first[left] = card;
            }
        }
    }
    let first = first.as_slice();
    let shown = first.len().min(usize::from(devices.hopper()));
    put_hopper(text, devices, &first[left.min(shown)..shown]);
    if hand > 0 {
        text.put(b"in hand: ");
        put_count(text, hand as u64, b"card");
        text.put_byte(b'\n');
    }
    put_stacker(text, devices);
}
