//! The public calls of the eight crates, made as a user makes them: what they give, and what they answer if memory is
//! refused.
//!
//! Each line names what was asked and what was given. Without a word the tables are shown whose lines the file `stdout`
//! has. A word names a table, or one of the long trials. A line that begins with `refused` says that a call was refused
//! memory, and was then made once more: `./check` makes each trial once for each allocation, with that one refused.
#![tactic(auto)]

mod attended;
mod characters;
mod devices;
mod fields;
mod images;
mod kept;
mod pauses;
mod processor;
mod rooms;
mod served;
mod shared;
mod sources;
mod storage;
mod surface;
mod tables;
mod texts;
mod trial;

use std::rt::Env;
use std::{env, io};
use tables::make_trials;
use trial::Trial;

fn main(rt: HostRuntime) -> io::Result<()> {
    let words: Vec<String> = env::args(&rt)?.collect(rt.alloc())?;
    let mut trial = Trial::new(rt.stdin(), rt.stdout(), rt.alloc());
    let word = match words.get(1) {
        Some(word) => word.as_str(),
        None => "",
    };
    make_trials(&rt, &mut trial, word);
    trial.into_written()
}
