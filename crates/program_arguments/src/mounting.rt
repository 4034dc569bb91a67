//! Reels on tape units, as options.
ghost use Rattle.std.specs.Prelude.{◌≡◌, ◌∷◌, ◌++◌, ◌≤◌, ◌+◌, [], true, false, IfSome, map};
ghost use Rattle.std.specs.Prelude.{ℕ, List, Some, is_some, nat_eq, option_map, unwrap_or};
ghost use Rattle.std.specs.List.{list_any};
ghost use Rattle.clap.specs.Words.{found_of};
ghost use Rattle.program_arguments.specs.Mounting.{AreMounted, AreReelsIn, IsLoadable, IsReelNamed, IsStartIn};
ghost use Rattle.program_arguments.specs.Mounting.{fitted_for, loads_tape, program_name, reel_text, texts_of};
ghost use Rattle.program_arguments.specs.Options.{Reads};

use crate::call::{MountedReel, ReelSource, Start};
use crate::faults::Faults;
use crate::options::{Argument, FREE, Kind, TEXT};
use clap::ArgMatches;
use machine_tables::Features;
use std::alloc::AllocError;

/// Why a value is refused that doesn't begin with a tape unit.
const NO_UNIT: &str = "it begins with a tape unit, 1 to 6, and =";

/// The reels on the tape units.
pub(crate) const TAPE: Argument = Argument {
    name: "tape",
    kind: Kind::Repeated("N=REEL"),
    help: "The reel on tape unit N, 1 to 6: FILE, FILE:ring to write it back too, FILE:new, or :scratch",
    ..FREE
};

/// The reel that is loaded.
pub(crate) const LOAD_TAPE: Argument = Argument {
    name: "load-tape",
    kind: Kind::Value("N=REEL", TEXT, &[]),
    excludes: &["load", "image"],
    help: "In place of FILE: the reel on unit N, FILE or FILE:ring; presses the key that loads from tape",
    ..FREE
};

/// Refuses a value of an option, which names no reel that can be mounted.
fn refuse_reel(option: &str, value: &str, why: &str, faults: &mut Faults)
    ensures { faults.new.are_none ≡ false }
{
    faults.refuse(format!(in faults.alloc;
        "invalid value '{value}' for '--{option} <N=REEL>': {why}"
    ));
}

/// The tape unit whose digit this is.
fn unit_of(digit: &str) -> Option<u8>
    ensures { IfSome result (λ unit. (digit.now ≡ (48 + unit) ∷ []) × (1 ≤ unit) × (unit ≤ 6)) }
{
    match digit.as_bytes() {
        [digit @ b'1'..=b'6'] => Some(*digit - b'0'),
        _ => None,
    }
}

/// The reel that this text names, or else none, where the file's name is empty.
fn named_reel(text: &str, faults: &mut Faults) -> Option<ReelSource>
    ensures { IfSome result (λ reel. Reads faults.old.are_none faults.new.are_none
        ((reel_text reel ≡ text.now) × IsReelNamed reel)) }
{
    if text == ":scratch" {
        return Some(ReelSource::Scratch);
    }
    match (text.strip_suffix(":ring"), text.strip_suffix(":new")) {
        (Some(""), _) | (None, Some("")) => None,
        (Some(name), _) => Some(ReelSource::Ringed(faults.own(name))),
        (None, Some(name)) => Some(ReelSource::New(faults.own(name))),
        (None, None) if text.is_empty() => None,
        (None, None) => Some(ReelSource::File(faults.own(text))),
    }
}

/// Whether one of these reels is on this unit.
fn has_unit(reels: &[MountedReel], unit: u8) -> bool
    ensures { result ≡ list_any (λ each. nat_eq each.unit unit) reels.now }
{
    reels.iter().any(|each| each.unit == unit)
}

/// Adds the reel that a value of an option names.
fn put_reel(option: &str, value: &str, reels: &mut Vec<MountedReel>, faults: &mut Faults)
    ensures { Reads faults.old.are_none faults.new.are_none ((texts : List (List ℕ))
        → AreMounted texts reels.old.items → AreMounted (texts ++ value.now ∷ []) reels.new.items) }
{
    let Some((digit, named)) = value.split_once('=') else {
        return refuse_reel(option, value, NO_UNIT, faults);
    };
    let Some(unit) = unit_of(digit) else {
        return refuse_reel(option, value, NO_UNIT, faults);
    };
    if has_unit(reels.as_slice(), unit) {
        return match format!(in faults.alloc; "unit {unit} has a reel already") {
            Ok(why) => refuse_reel(option, value, why.as_str(), faults),
            Err(_) => faults.refuse(Err(AllocError)),
        };
    }
    let Some(reel) = named_reel(named, faults) else {
        return refuse_reel(option, value, "the reel's file has no name", faults);
    };
    let is_kept = reels.push(MountedReel { unit, reel }).is_ok();
    faults.keep(is_kept);
}

/// Adds the reel that the value of `--load-tape` names, if there is one. There are none before.
fn put_loaded(value: Option<&str>, reels: &mut Vec<MountedReel>, faults: &mut Faults)
    requires { reels.old.items ≡ [] }
    ensures { Reads faults.old.are_none faults.new.are_none
        (AreMounted (texts_of (option_map (λ each. each.now) value.entry) []) reels.new.items) }
{
    if let Some(value) = value {
        put_reel("load-tape", value, reels, faults);
    }
}

/// Adds the reels that these values of `--tape` name.
fn put_each(values: &[&str], reels: &mut Vec<MountedReel>, faults: &mut Faults)
    ensures { Reads faults.old.are_none faults.new.are_none ((texts : List (List ℕ))
        → AreMounted texts reels.old.items → AreMounted (texts ++ map (λ each. each.now) values.now) reels.new.items) }
{
    for value in values {
        put_reel("tape", value, reels, faults);
    }
}

/// Adds the reels that the values of `--tape` name, if there are any.
fn put_tapes(values: Option<&[&str]>, reels: &mut Vec<MountedReel>, faults: &mut Faults)
    ensures { Reads faults.old.are_none faults.new.are_none ((texts : List (List ℕ))
        → AreMounted texts reels.old.items
        → AreMounted (texts ++ unwrap_or (option_map (λ all. map (λ each. each.now) all.now) values.entry) [])
        reels.new.items) }
{
    if let Some(values) = values {
        put_each(values, reels, faults);
    }
}

/// Whether the first of these reels can be loaded, if one is to be: whether it is that of a file which there is.
fn can_load(loaded: Option<&str>, reels: &[MountedReel]) -> bool
    ensures { result ≡ true → is_some (option_map (λ each. each.now) loaded.entry) ≡ true → IsLoadable reels.now }
{
    match (loaded, reels) {
        (None, _) => true,
        (Some(_), [first, ..]) => match first.reel {
            ReelSource::File(_) | ReelSource::Ringed(_) => true,
            ReelSource::New(_) | ReelSource::Scratch => false,
        },
        (Some(_), []) => false,
    }
}

/// The reels that the options name: the loaded one comes first.
pub(crate) fn reels_in(matches: &ArgMatches<'_>, faults: &mut Faults) -> Vec<MountedReel>
    ensures { Reads faults.old.are_none faults.new.are_none (AreReelsIn (found_of matches.now) result.items) }
{
    let mut reels = Vec::new(faults.alloc);
    let loaded = matches.get_str("load-tape");
    put_loaded(loaded, &mut reels, faults);
    put_tapes(matches.get_strs("tape"), &mut reels, faults);
    if !can_load(loaded, reels.as_slice()) {
        let value = loaded.unwrap_or("");
        refuse_reel("load-tape", value, "a new reel has nothing to load", faults);
    }
    reels
}

/// How the program is started that the options name, with these reels.
pub(crate) fn start_in(matches: &ArgMatches<'_>, reels: &[MountedReel]) -> Start
    ensures { AreReelsIn (found_of matches.now) reels.now → IsStartIn (found_of matches.now) reels.now result }
{
    match (matches.get_str("load-tape"), reels) {
        (Some(_), [first, ..]) => Start::LoadTape(first.unit),
        (Some(_), []) | (None, _) => {
            if matches.get_flag("load") {
                Start::LoadKey
            } else {
                Start::Entry
            }
        }
    }
}

/// The name of the file of a program that is started so: this one, or that of the first reel.
pub(crate) fn program_file<'a>(file: &'a str, start: Start, reels: &'a [MountedReel]) -> &'a str
    ensures { (loads_tape start ≡ true → IsLoadable reels.now)
        → program_name file.now reels.now start ≡ Some result.now }
{
    match (start, reels) {
        (Start::LoadTape(_), [first, ..]) => first.reel.file().unwrap_or(file),
        (Start::LoadTape(_), []) | (Start::Entry | Start::LoadKey, _) => file,
    }
}

/// The features of a machine with these reels on its tape units.
pub(crate) fn fitted_for(reels: &[MountedReel], features: Features) -> Features
    ensures { result ≡ fitted_for reels.now features }
{
    Features {
        tapes: features.tapes || !reels.is_empty(),
        ..features
    }
}
