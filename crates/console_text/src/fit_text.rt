//! The text of the command that fits a machine, which no console has a word for.
ghost use Rattle.std.specs.Prelude.{◌≡◌, ◌++◌, Some, IfSome, OnOk};
ghost use Rattle.std.specs.List.{flat_map};
ghost use Rattle.machine_tables.specs.declared.features.Features.{Features};
ghost use Rattle.machine_tables.specs.Features.{are_some, feature_list};
ghost use Rattle.console_text.specs.FitText.{feature_word, features_at, features_in, fit_of, fit_text, named};
ghost use Rattle.console_text.specs.FitText.{word_if, words_of};

use machine_tables::{Feature, Features};
use std::alloc::AllocError;

/// The name of a feature in capitals, after a blank.
fn word(feature: Feature) -> &'static [u8]
    ensures { result.now ≡ feature_word feature }
{
    match feature {
        Feature::Multiply => b" MULTIPLY",
        Feature::MoveRecord => b" MOVE-RECORD",
        Feature::ModifyAddress => b" MODIFY-ADDRESS",
        Feature::BitTest => b" BIT-TEST",
        Feature::Lengths => b" LENGTHS",
        Feature::ReadPunchRelease => b" READ-PUNCH-RELEASE",
        Feature::Tapes => b" TAPES",
    }
}

/// Adds FIT and the names of features in capitals, in the order of `Feature::ALL`, or NONE (own).
#[tactic(auto, unfolding(crate::specs::FitText::fit_text))]
pub(crate) fn put_fit(text: &mut Vec<u8>, features: Features) -> Result<(), AllocError>
    ensures { OnOk result (text.new.items ≡ text.old.items ++ fit_text features) }
{
    text.extend_from_slice(b"FIT")?;
    put_words(text, features)
}

/// Adds the words of features, in the order of `Feature::ALL`, or NONE.
fn put_words(text: &mut Vec<u8>, features: Features) -> Result<(), AllocError>
    ensures { OnOk result (text.new.items ≡ text.old.items ++ words_of features) }
{
    if features.are_some() {
        put_each(text, features)
    } else {
        text.extend_from_slice(b" NONE")
    }
}

/// Adds the words of features, in the order of `Feature::ALL`.
fn put_each(text: &mut Vec<u8>, features: Features) -> Result<(), AllocError>
    ensures { OnOk result (text.new.items ≡ text.old.items ++ flat_map (word_if features) feature_list) }
{
    for feature in Feature::ALL.iter() {
        put_word(text, features, *feature)?;
    }
    Ok(())
}

/// Adds a feature's word, if the feature is among these.
fn put_word(text: &mut Vec<u8>, features: Features, feature: Feature) -> Result<(), AllocError>
    ensures { OnOk result (text.new.items ≡ text.old.items ++ word_if features feature) }
{
    if features.has(feature) {
        text.extend_from_slice(word(feature))
    } else {
        Ok(())
    }
}

/// The features of the command that this is the text of, as `put_command` writes it. There is no other spelling.
///
/// ```text
/// parse_fit(b"FIT MULTIPLY BIT-TEST")     // these two
/// parse_fit(b"FIT NONE")                  // Some(Features::NONE)
/// parse_fit(b"FIT BIT-TEST MULTIPLY")     // None: they have an order
/// ```
pub fn parse_fit(text: &[u8]) -> Option<Features>
    ensures value { result ≡ fit_of text.now }

    // What is written is read as these features.
    ensures again { (features : Features) → text.now ≡ fit_text features → result ≡ Some features }

    // Nothing else is read.
    ensures exact { IfSome result (λ features. text.now ≡ fit_text features) }
{
    fit_of(text)
}

/// The features that follow FIT, with which a text begins.
#[tactic(auto, unfolding(crate::specs::FitText::fit_of))]
fn fit_of(text: &[u8]) -> Option<Features>
    ensures { result ≡ fit_of text.now }
{
    let rest = text.strip_prefix(b"FIT".as_slice())?;
    features_in(rest)
}

/// The features that follow FIT.
#[tactic(auto, unfolding(crate::specs::FitText::features_in))]
fn features_in(text: &[u8]) -> Option<Features>
    ensures { result ≡ features_in text.now }
{
    if text == b" NONE".as_slice() {
        return Some(Features::NONE);
    }
    let (features, rest) = features_at(text);
    if features.are_some() && rest.is_empty() {
        Some(features)
    } else {
        None
    }
}

/// The features whose words a text begins with, in the order of `Feature::ALL`, and what follows them.
fn features_at(text: &[u8]) -> (Features, &[u8])
    ensures features { result.0 ≡ (features_at text.now).0 }
    ensures rest { result.1.now ≡ (features_at text.now).1 }
{
    let (multiply, rest) = named(Feature::Multiply, text);
    let (move_record, rest) = named(Feature::MoveRecord, rest);
    let (modify_address, rest) = named(Feature::ModifyAddress, rest);
    let (bit_test, rest) = named(Feature::BitTest, rest);
    let (lengths, rest) = named(Feature::Lengths, rest);
    let (read_punch_release, rest) = named(Feature::ReadPunchRelease, rest);
    let (tapes, rest) = named(Feature::Tapes, rest);
    let features = Features {
        multiply,
        move_record,
        modify_address,
        bit_test,
        lengths,
        read_punch_release,
        tapes,
    };
    (features, rest)
}

/// Whether a feature's word is what a text begins with, and what follows it then.
fn named(feature: Feature, text: &[u8]) -> (bool, &[u8])
    ensures is { result.0 ≡ (named feature text.now).0 }
    ensures rest { result.1.now ≡ (named feature text.now).1 }
{
    match text.strip_prefix(word(feature)) {
        Some(rest) => (true, rest),
        None => (false, text),
    }
}
