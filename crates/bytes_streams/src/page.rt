//! A page of a text: it is written, and empty again, as soon as what comes next doesn't fit in.
ghost use Rattle.std.specs.Prelude.{◌≡◌, ◌+◌, ◌++◌, ◌≤◌, [], length, vec_capacity, IsTrue, OnOk, OnErr};
ghost use Rattle.bytes_streams.specs.Sink.{AppendsPart};
ghost use Rattle.bytes_streams.specs.Page.{most_in_page, Sent};

use crate::{Failed, Sink, put_all};

/// How many bytes are written at once.
pub const PAGE: usize = 16_384;

/// Writes a page and empties it, unless this many bytes still fit in.
///
/// # Errors
///
/// If a write has failed or fails, or takes nothing.
pub fn make_room<W: Sink>(page: &mut Vec<u8>, count: usize, writer: &mut W) -> Result<(), Failed>
    requires { most_in_page ≤ vec_capacity page.old }
    ensures sent { OnOk result
        (Sent (W.received writer.old) (W.received writer.new) page.old.items page.new.items) }
    ensures part { OnErr result (AppendsPart (W.received writer.old) (W.received writer.new) page.old.items) }
    ensures failed { OnErr result (IsTrue (W.has_failed writer.new)) }

    // There is room for them, unless they are more than a page.
    ensures room { OnOk result (count ≤ most_in_page → length page.new.items + count ≤ vec_capacity page.new) }
    ensures none { OnOk result (most_in_page ≤ count → page.new.items ≡ []) }
    ensures capacity { vec_capacity page.old ≤ vec_capacity page.new }
{
    if page.len() > PAGE.saturating_sub(count) {
        put_all(writer, page.as_slice())?;
        page.clear();
    }
    Ok(())
}

/// Adds bytes to a page that has room for them.
fn put_in_room(page: &mut Vec<u8>, bytes: &[u8])
    requires { length page.old.items + length bytes.now ≤ vec_capacity page.old }
    ensures text { page.new.items ≡ page.old.items ++ bytes.now }
    ensures capacity { vec_capacity page.old ≤ vec_capacity page.new }
{
    match page.extend_from_slice(bytes) {
        Ok(()) => {},
        Err(_) => unreachable!(),
    }
}

/// Adds bytes to a page. If they don't fit in, what it has is written first; more than a page of them are written at
/// once.
///
/// # Errors
///
/// If a write has failed or fails, or takes nothing.
pub fn put_through<W: Sink>(page: &mut Vec<u8>, bytes: &[u8], writer: &mut W) -> Result<(), Failed>
    requires { most_in_page ≤ vec_capacity page.old }
    ensures sent { OnOk result
        (Sent (W.received writer.old) (W.received writer.new) (page.old.items ++ bytes.now) page.new.items) }
    ensures part { OnErr result
        (AppendsPart (W.received writer.old) (W.received writer.new) (page.old.items ++ bytes.now)) }
    ensures failed { OnErr result (IsTrue (W.has_failed writer.new)) }
    ensures capacity { vec_capacity page.old ≤ vec_capacity page.new }
{
    make_room(page, bytes.len(), writer)?;
    if bytes.len() > PAGE {
        return put_all(writer, bytes);
    }
    put_in_room(page, bytes);
    Ok(())
}
