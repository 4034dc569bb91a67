//! How far runs go.
ghost use Rattle.std.specs.Prelude.{◌≡◌, false, None, Some};
ghost use Rattle.operate_console.specs.Line.{least_of, reach_of};
ghost use Rattle.operate_console.specs.Run.{is_why_met};

use crate::manner::Manner;
use crate::setting::Setting;
use operate_answers::Ended;

/// How far a run goes, if nothing ends it before.
#[derive(Clone, Copy)]
pub struct Reach {
    /// How many instructions are carried out at most, if there is a bound.
    pub most: Option<u32>,
    /// The address up to which it goes, if there is one.
    pub until: Option<u16>,
}

/// A run as it is asked for.
#[derive(Clone, Copy)]
pub(crate) struct Extent {
    /// How far it goes.
    pub(crate) reach: Reach,
    /// Whether the limit is lower than the count, if it has carried out all of its instructions.
    pub(crate) is_limited: bool,
    /// Whether there is a line for each instruction.
    pub(crate) has_lines: bool,
}

/// The lower of two bounds, as far as there are any.
fn least_of(one: Option<u32>, other: Option<u32>) -> Option<u32>
    ensures { result ≡ least_of one other }
{
    match one {
        None => other,
        Some(one) => match other {
            None => Some(one),
            Some(other) => Some(one.min(other)),
        },
    }
}

/// Whether a limit is lower than a count, or there is no count.
fn is_limited(count: Option<u32>, limit: Option<u32>) -> bool {
    match (count, limit) {
        (Some(count), Some(limit)) => count > limit,
        (None, Some(_)) => true,
        (_, None) => false,
    }
}

/// What a run is given, and doesn't change.
#[derive(Clone, Copy)]
pub(crate) struct Asked<'a> {
    /// What every line is given.
    pub(crate) setting: Setting<'a>,
    /// How far the run goes, and what is shown of it.
    pub(crate) extent: Extent,
}

impl Extent {
    /// A run of this many instructions, or without an end; but not beyond the limit, if nobody can stop it.
    pub(crate) fn new(count: Option<u32>, manner: &Manner) -> Extent
        ensures { result.reach ≡ reach_of count manner.now.limit }
    {
        Extent {
            reach: Reach {
                most: least_of(count, manner.limit),
                until: None,
            },
            is_limited: is_limited(count, manner.limit),
            has_lines: false,
        }
    }

    /// The same with a line for each instruction.
    pub(crate) fn with_lines(self) -> Extent
        ensures { result.reach ≡ self.reach }
    {
        Extent {
            reach: self.reach,
            is_limited: self.is_limited,
            has_lines: true,
        }
    }

    /// The same up to an address.
    pub(crate) fn up_to(self, address: u16) -> Extent
        ensures { result.reach ≡ record { most = self.reach.most; until = Some address } }
    {
        Extent {
            reach: Reach {
                most: self.reach.most,
                until: Some(address),
            },
            is_limited: self.is_limited,
            has_lines: self.has_lines,
        }
    }

    /// Why it ends if it has carried out all of its instructions.
    pub(crate) fn end(&self) -> Ended
        ensures { is_why_met result ≡ false }
    {
        if self.is_limited {
            Ended::Unattended
        } else {
            Ended::Counted
        }
    }
}
