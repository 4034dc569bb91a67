//! What the machine is fitted with, as an option.
ghost use Rattle.std.specs.Prelude.{◌≡◌, ◌∷◌, codes, map};
ghost use Rattle.clap.specs.Words.{found_of};
ghost use Rattle.machine_tables.specs.Features.{feature_list, feature_name};
ghost use Rattle.program_arguments.specs.Features.{features_in, is_named};
ghost use Rattle.program_arguments.specs.Options.{Reads};

use crate::faults::Faults;
use crate::options::{Argument, FREE, Kind};
use clap::ArgMatches;
use machine_tables::{Feature, Features};

/// The name of all features at once.
const ALL: &str = "all";

/// What the machine is fitted with.
pub(crate) const FIT: Argument = Argument {
    name: "fit",
    kind: Kind::List("FEATURES", NAMES),
    help: "The features that the machine is fitted with, with commas between them",
    ..FREE
};

/// The names that the option takes: that of all features, and each feature's.
const NAMES: &[&str] = &[
    ALL,
    "multiply",
    "move-record",
    "modify-address",
    "bit-test",
    "lengths",
    "read-punch-release",
    "tapes",
];

/// These are the names of the features.
fn names() -> &'static [&'static str]
    ensures { map (λ each. each.now) result.now ≡ codes "all" ∷ map feature_name feature_list }
{
    NAMES
}

/// Whether a feature is among those that are named.
fn is_named(names: &[&str], feature: Feature) -> bool
    ensures { result ≡ is_named (map (λ each. each.now) names.now) feature }
{
    names.contains(&ALL) || names.contains(&feature.name())
}

/// Whether a name comes twice, or next to that of all features.
fn are_twice(names: &[&str]) -> bool {
    for (place, name) in names.iter().enumerate() {
        if names.split_at(place).0.contains(name) {
            return true;
        }
    }
    names.len() > 1 && names.contains(&ALL)
}

/// The features that the options of a subcommand name.
pub(crate) fn features_in(matches: &ArgMatches<'_>, faults: &mut Faults) -> Features
    ensures { Reads faults.old.are_none faults.new.are_none (result ≡ features_in (found_of matches.now)) }
{
    let Some(names) = matches.get_strs("fit") else {
        return Features::NONE;
    };
    faults.check(!are_twice(names), "--fit names a feature twice");
    Features {
        multiply: is_named(names, Feature::Multiply),
        move_record: is_named(names, Feature::MoveRecord),
        modify_address: is_named(names, Feature::ModifyAddress),
        bit_test: is_named(names, Feature::BitTest),
        lengths: is_named(names, Feature::Lengths),
        read_punch_release: is_named(names, Feature::ReadPunchRelease),
        tapes: is_named(names, Feature::Tapes),
    }
}
