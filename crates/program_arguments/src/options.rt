//! The kinds of arguments that the subcommands have.
use crate::help_texts::HelpTexts;
use clap::builder::ValueParser;
use clap::{Arg, ArgAction};
use std::alloc::{AllocError, Global};

/// An argument of a subcommand.
pub(crate) struct Argument {
    /// Its name.
    pub name: &'static str,
    /// What it is.
    pub kind: Kind,
    /// Whether it has to be there.
    pub is_required: bool,
    /// If there are any of these, one of them has to be there, or it itself.
    pub instead: &'static [&'static str],
    /// What has to be there with it: other arguments, or one of a group.
    pub needs: &'static [&'static str],
    /// What can't be there with it.
    pub excludes: &'static [&'static str],
    /// Its help.
    pub help: &'static str,
}

/// What an argument is.
pub(crate) enum Kind {
    /// An option without a value.
    Flag,
    /// An option with a value, for which the help has this word, which this parser takes, and which is this one if none
    /// is named.
    Value(&'static str, ValueParser<'static>, &'static [&'static str]),
    /// The same with any text for its value, and the option may come more than once.
    Repeated(&'static str),
    /// An option with a value, for which the help has this word, and with this letter for a shorter name.
    Short(&'static str, char),
    /// The size of core storage, whose help is made of the list of sizes.
    Size,
    /// An option with values, with commas between them, for which the help has this word, and each of which is one of
    /// these names.
    List(&'static str, &'static [&'static str]),
    /// A file, which is named without the name of an option.
    File,
}

/// An argument that may be there or not, whatever else is there.
pub(crate) const FREE: Argument = Argument {
    name: "",
    kind: Kind::Flag,
    is_required: false,
    instead: &[],
    needs: &[],
    excludes: &[],
    help: "",
};

/// Any text.
pub(crate) const TEXT: ValueParser<'static> = ValueParser::String;

/// Any `u8`.
pub(crate) const ANY_U8: ValueParser<'static> = ValueParser::Signed(0, 255);

/// Any `u16`.
const ANY_U16: ValueParser<'static> = ValueParser::Signed(0, 65_535);

/// Any `u32`.
pub(crate) const ANY_U32: ValueParser<'static> = ValueParser::Signed(0, 4_294_967_295);

/// An argument as `clap` has it, with the texts that the help takes from tables.
pub(crate) fn arg_of<'a>(
    alloc: Global,
    texts: &'a HelpTexts,
    of: &Argument,
) -> Result<Arg<'a>, AllocError> {
    let plain = Arg::new(alloc, of.name)
        .help(of.help)
        .required(of.is_required);
    let arg = match of.kind {
        Kind::File => plain.value_name("FILE"),
        Kind::Flag => plain.long(of.name).action(ArgAction::SetTrue),
        Kind::Value(value, parser, default) => plain
            .long(of.name)
            .value_name(value)
            .value_parser(parser)
            .default_values(default),
        Kind::Repeated(value) => plain
            .long(of.name)
            .value_name(value)
            .action(ArgAction::Append),
        Kind::Short(value, letter) => plain.long(of.name).value_name(value).short(letter),
        Kind::Size => plain
            .long(of.name)
            .value_name("N")
            .value_parser(ANY_U16)
            .help(texts.sizes.as_str())
            .default_value(texts.default_size.as_str()),
        Kind::List(value, names) => plain
            .long(of.name)
            .value_name(value)
            .value_parser(ValueParser::Names(names))
            .value_delimiter(','),
    };
    arg.required_unless_present_any(of.instead)?
        .requires_all(of.needs)?
        .conflicts_with_all(of.excludes)
}
