//! A deck run to its end on the IBM 1401 with its tape units: cards in, paper and punched cards out, and no operator.
//!
//! ```text
//! let read = read_deck(alloc, text)?;     // a card from each line
//! let mut deck = Deck::new(&read.cards);
//! let mut output = Collected::new(alloc);
//! run_job(&mut taped, &mut deck, 1_000_000, &mut output)?   // the steps, and why it ended
//! output.lines                            // all that was printed, however much
//! ```
//!
//! Hopper, stacker and paper hold 500 each, and a step reads, punches and prints at most one. So a job that fills the
//! hopper and empties stacker and paper every 500 steps never shows the machine an empty hopper while cards are left,
//! nor a full stacker or full paper.
#![tactic(auto)]

// where cards come from, a deck in memory, and one as a text
pub mod card_list;
pub mod cards;
pub mod deck;
pub mod deck_text;

// the hopper filled, and the load key
mod feeding;
pub mod loading;

// a machine run with a deck, and why that breaks off
pub mod fault;
pub mod job;

// paper and stacker emptied, where lines and cards go, and the paper as a text
pub mod collected;
pub mod output;
pub mod paper;
mod taking;

pub use card_list::CardList;
pub use cards::Cards;
pub use collected::Collected;
pub use deck::Deck;
pub use deck_text::{DeckTextFault, ReadDeck, put_cards, read_deck};
pub use fault::JobFault;
pub use job::{JobEnd, STRETCH, run_job};
pub use loading::press_load_key;
pub use output::Output;
pub use paper::{PaperPlace, put_paper};
