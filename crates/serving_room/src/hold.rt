//! A machine that one page holds for a minute: meanwhile no other page gives it lines.
ghost use Rattle.std.specs.Prelude.{◌≡◌, ◌-◌, ◌≤◌, IfSome};
ghost use Rattle.serving_room.specs.Holds.{ended_by, going_on, held_by, is_kept_off, seconds_held, seen_by};

/// How long a page holds the machine at most, in seconds.
const HELD: u64 = 60;

/// After how many seconds without a request of its page a hold ends.
const GONE: u64 = 5;

/// That a page holds the machine. Times are in seconds of the clock.
#[derive(Clone, Copy)]
pub(crate) struct Hold {
    /// The number of the page's seat.
    pub seat: u8,
    /// When it began.
    pub since: u64,
    /// When its page was last seen.
    pub seen: u64,
}

/// How many seconds a hold still has: 60 from its beginning on, or none once its page is gone.
pub(crate) fn seconds_held(hold: &Hold, now: u64) -> u64
    ensures value { result ≡ seconds_held hold.now now }
    ensures most { result ≤ 60 }
{
    if hold.since <= now && now.saturating_sub(hold.seen) < GONE {
        HELD.saturating_sub(now.saturating_sub(hold.since))
    } else {
        0
    }
}

/// The hold that still goes on.
pub(crate) fn going_on(hold: Option<Hold>, now: u64) -> Option<Hold>
    ensures value { result ≡ going_on hold now }

    // No hold outlasts 60 seconds.
    ensures ends { IfSome result (λ hold. (hold.since ≤ now) × (now - hold.since ≤ 59)) }
{
    let Some(hold) = hold else {
        return None;
    };
    if seconds_held(&hold, now) > 0 {
        Some(hold)
    } else {
        None
    }
}

/// The hold after the page of this seat asked for one: its own, unless another one goes on. No hold is made longer.
pub(crate) fn held_by(hold: Option<Hold>, seat: u8, now: u64) -> Option<Hold>
    ensures { result ≡ held_by hold seat now }
{
    match hold {
        Some(hold) => Some(hold),
        None => Some(Hold {
            seat,
            since: now,
            seen: now,
        }),
    }
}

/// The hold after the page of this seat ended its own.
pub(crate) fn ended_by(hold: Option<Hold>, seat: u8) -> Option<Hold>
    ensures { result ≡ ended_by hold seat }
{
    let Some(hold) = hold else {
        return None;
    };
    if hold.seat == seat { None } else { Some(hold) }
}

/// The hold after the page of this seat was seen.
pub(crate) fn seen_by(hold: Option<Hold>, seat: u8, now: u64) -> Option<Hold>
    ensures { result ≡ seen_by hold seat now }
{
    let Some(hold) = hold else {
        return None;
    };
    if hold.seat != seat {
        return Some(hold);
    }
    Some(Hold {
        seat,
        since: hold.since,
        seen: now,
    })
}

/// Whether another page than that of this seat holds the machine.
pub(crate) fn is_kept_off(hold: Option<Hold>, seat: u8) -> bool
    ensures { result ≡ is_kept_off hold seat }
{
    match hold {
        Some(hold) => hold.seat != seat,
        None => false,
    }
}
