//! The fields of a request that say where it comes from, and what it goes on from.
ghost use Rattle.std.specs.Prelude.{◌≡◌};
ghost use Rattle.http.specs.Request.{head_of};
ghost use Rattle.serving_http.specs.Fields.{count_in, has_field, is_ambiguous, is_doubled, is_for, is_for_room};
ghost use Rattle.serving_http.specs.Fields.{is_next};

use crate::numbers::number;
use bytes::Bytes;
use http::Request;

/// Whether the first value of a field is this one, byte for byte.
pub fn has_field(request: &Request<Bytes>, name: &str, value: &[u8]) -> bool
    ensures { result ≡ has_field (head_of request.now) name.now value.now }
{
    match request.headers().get(name) {
        Some(found) => found.as_bytes() == value,
        None => false,
    }
}

/// Whether a field stands more than once.
fn is_doubled(request: &Request<Bytes>, name: &str) -> bool
    ensures { result ≡ is_doubled (head_of request.now) name.now }
{
    request.headers().get_all(name).iter().count() > 1
}

/// Whether a request says twice where it comes from, or what it goes on from.
pub fn is_ambiguous(request: &Request<Bytes>) -> bool
    ensures { result ≡ is_ambiguous (head_of request.now) }
{
    is_doubled(request, "origin")
        || is_doubled(request, "x-1401-line")
        || is_doubled(request, "x-1401-room")
}

/// Whether a request is for this host and port: its target has none of its own, and its Host names it.
pub fn is_for(request: &Request<Bytes>, host: &[u8]) -> bool
    ensures { result ≡ is_for (head_of request.now) host.now }
{
    if request.uri().authority().is_some() {
        return false;
    }
    has_field(request, "host", host)
}

/// Whether a line goes on from this number of commands, by how many of the seat's its sender knows of.
pub fn is_next(request: &Request<Bytes>, made: u64) -> bool
    ensures { result ≡ is_next (count_in (head_of request.now)) made }
{
    let Some(found) = request.headers().get("x-1401-line") else {
        return false;
    };
    match number(found.as_bytes()) {
        Some(count) => u64::from(count) == made,
        None => false,
    }
}

/// Whether a line is for the room of this name: it names it, or names none.
pub fn is_for_room(request: &Request<Bytes>, name: &[u8]) -> bool
    ensures { result ≡ is_for_room (head_of request.now) name.now }
{
    match request.headers().get("x-1401-room") {
        Some(found) => found.as_bytes() == name,
        None => true,
    }
}
