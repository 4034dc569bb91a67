//! The words of a line, and the numbers among them.
ghost use Rattle.std.specs.Prelude.{◌≡◌, ◌≤◌, length};
ghost use Rattle.std.specs.List.{prefix_len, position_or_len};
ghost use Rattle.console_text.specs.Words.{is_blank, word_in, beyond_word, name_of, keyword_of, number_of};
ghost use Rattle.console_text.specs.Words.{address_of, count_of, letter_of, switch_named, switch_of, setting_of};

use crate::line::LineFault;
use core_1401::ADDRESSES;
use machine_notation::read_digits;
use machine_tables::SwitchName;

/// The most digits that a number has.
const MOST_DIGITS: usize = 7;

/// The words that a line may begin with.
#[derive(Clone, Copy)]
pub(crate) enum Keyword {
    /// DEPOSIT: cells at an address.
    Deposit,
    /// EXAMINE: the cells at an address.
    Examine,
    /// REGS: the registers.
    Regs,
    /// START: the address of the next instruction.
    Start,
    /// SWITCH: a sense switch, on or off.
    Switch,
    /// FEED: a card.
    Feed,
    /// LOAD: the load key.
    Load,
    /// RUN: instructions, up to a number of them.
    Run,
    /// LINE: the oldest printed line.
    Line,
    /// CARD: the oldest punched card.
    Card,
    /// GLANCE: the cell at an address, without a command.
    Glance,
    /// QUIT: the end of the session.
    Quit,
}

impl Keyword {
    /// All of them.
    const ALL: [Keyword; 12] = [
        Keyword::Deposit,
        Keyword::Examine,
        Keyword::Regs,
        Keyword::Start,
        Keyword::Switch,
        Keyword::Feed,
        Keyword::Load,
        Keyword::Run,
        Keyword::Line,
        Keyword::Card,
        Keyword::Glance,
        Keyword::Quit,
    ];

    /// The word.
    fn name(self) -> &'static [u8]
        ensures { result.now ≡ name_of self }
    {
        match self {
            Keyword::Deposit => b"DEPOSIT",
            Keyword::Examine => b"EXAMINE",
            Keyword::Regs => b"REGS",
            Keyword::Start => b"START",
            Keyword::Switch => b"SWITCH",
            Keyword::Feed => b"FEED",
            Keyword::Load => b"LOAD",
            Keyword::Run => b"RUN",
            Keyword::Line => b"LINE",
            Keyword::Card => b"CARD",
            Keyword::Glance => b"GLANCE",
            Keyword::Quit => b"QUIT",
        }
    }

    /// The one that a word is, if it is one.
    #[tactic(auto, unfolding(crate::specs::Words::keyword_of))]
    pub(crate) fn from_word(word: &[u8]) -> Option<Keyword>
        ensures { result ≡ keyword_of word.now }
    {
        Keyword::ALL
            .iter()
            .copied()
            .find(|keyword| keyword.name() == word)
    }
}

/// How many blanks a text begins with.
fn blanks_in_front(text: &[u8]) -> usize
    ensures value { result ≡ prefix_len is_blank text.now }
    ensures bound { result ≤ length text.now }
{
    text.iter().take_while(|byte| **byte == b' ').count()
}

/// The number of bytes before the first blank of a text.
fn bytes_before_blank(text: &[u8]) -> usize
    ensures value { result ≡ position_or_len is_blank text.now }
    ensures bound { result ≤ length text.now }
{
    text.iter().take_while(|byte| **byte != b' ').count()
}

/// The first word of a text, empty if there are only blanks, and what follows it.
#[tactic(auto, unfolding(crate::specs::Words::word_in, crate::specs::Words::beyond_word))]
pub(crate) fn split_word(text: &[u8]) -> (&[u8], &[u8])
    ensures word { result.0.now ≡ word_in text.now }
    ensures beyond { result.1.now ≡ beyond_word text.now }
{
    let text = &text[blanks_in_front(text)..];
    text.split_at(bytes_before_blank(text))
}

/// The number that a word is, one to seven digits.
///
/// # Errors
///
/// `Number` if the word is no number.
#[tactic(auto, unfolding(crate::specs::Words::number_of, machine_notation::specs::Digits::number_in))]
pub(crate) fn number(word: &[u8]) -> Result<u32, LineFault>
    ensures { result ≡ number_of word.now }
{
    if word.is_empty() || word.len() > MOST_DIGITS {
        return Err(LineFault::Number);
    }
    read_digits(word).ok_or(LineFault::Number)
}

/// The address that a word is, a number below 16,000.
///
/// # Errors
///
/// `Number` if the word is no address.
#[tactic(auto, unfolding(crate::specs::Words::address_of))]
pub(crate) fn address(word: &[u8]) -> Result<u16, LineFault>
    ensures { result ≡ address_of word.now }
{
    let number = number(word)?;
    if number < u32::from(ADDRESSES) {
        Ok(number as u16)
    } else {
        Err(LineFault::Number)
    }
}

/// The count that a word is, a number, or 1 if there is no word.
///
/// # Errors
///
/// `Number` if the word is no number.
#[tactic(auto, unfolding(crate::specs::Words::count_of))]
pub(crate) fn count(word: &[u8]) -> Result<u32, LineFault>
    ensures { result ≡ count_of word.now }
{
    if word.is_empty() { Ok(1) } else { number(word) }
}

/// The sense switches.
const SWITCHES: [SwitchName; 7] = [
    SwitchName::A,
    SwitchName::B,
    SwitchName::C,
    SwitchName::D,
    SwitchName::E,
    SwitchName::F,
    SwitchName::G,
];

/// The letter of a sense switch.
pub(crate) fn letter(switch: SwitchName) -> &'static [u8]
    ensures { result.now ≡ letter_of switch }
{
    match switch {
        SwitchName::A => b"A",
        SwitchName::B => b"B",
        SwitchName::C => b"C",
        SwitchName::D => b"D",
        SwitchName::E => b"E",
        SwitchName::F => b"F",
        SwitchName::G => b"G",
    }
}

/// The sense switch that a word names by its letter, if it names one.
#[tactic(auto, unfolding(crate::specs::Words::switch_named))]
fn switch_named(word: &[u8]) -> Option<SwitchName>
    ensures { result ≡ switch_named word.now }
{
    SWITCHES
        .iter()
        .copied()
        .find(|switch| letter(*switch) == word)
}

/// The sense switch that a word names.
///
/// # Errors
///
/// `Word` if the word names none.
pub(crate) fn switch(word: &[u8]) -> Result<SwitchName, LineFault>
    ensures { result ≡ switch_of word.now }
{
    switch_named(word).ok_or(LineFault::Word)
}

/// Whether a switch is to be on, as a word says it: ON or OFF.
///
/// # Errors
///
/// `Word` if the word is neither.
#[tactic(auto, unfolding(crate::specs::Words::setting_of))]
pub(crate) fn setting(word: &[u8]) -> Result<bool, LineFault>
    ensures { result ≡ setting_of word.now }
{
    if word == b"ON".as_slice() {
        Ok(true)
    } else if word == b"OFF".as_slice() {
        Ok(false)
    } else {
        Err(LineFault::Word)
    }
}
