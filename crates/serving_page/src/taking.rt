//! What a request brings to a seat, and what came of it.
ghost use Rattle.std.specs.Prelude.{[], IfOk, IfErr};
ghost use Rattle.http_server.specs.Response.{IsResponse};
ghost use Rattle.serving_http.specs.Responses.{text_fields};
ghost use Rattle.serving_page.specs.Taking.{IsLocked, IsToldBy, IsUnansweredBy};

use bytes::BufMut;
use console_1401::Unanswered;
use http::StatusCode;
use http_server::Response;
use serving_http::{end_with, end_without};

/// What a request brings to a seat.
#[derive(Clone, Copy)]
pub(crate) enum Brought {
    /// Its body is a console line.
    Line,
    /// Its body has console lines, with a line feed between two.
    Lines,
}

/// What it is replied.
#[derive(Drop)]
pub(crate) enum Replied {
    /// It was carried out: the replies.
    Whole(Vec<u8>),
    /// It is held off from some line on: the replies to the lines before, and then why.
    KeptOff(Vec<u8>),
}

/// Ends a response with the text of what is held off; or without it, if the memory for it is refused.
fn end_locked(response: &mut Response, text: &[u8])
    requires { IsResponse 200 text_fields [] response.old }
    ensures { IsLocked text.now response.new }
{
    response.status = StatusCode::LOCKED;
    if response.body.put_slice(text).is_err() {
        response.body.clear();
    }
}

/// Fills in what came of it.
pub(crate) fn tell_outcome(response: &mut Response, outcome: Result<Replied, Unanswered>)
    requires { IsResponse 200 text_fields [] response.old }
    ensures ok { IfOk outcome (λ replied. IsToldBy replied response.new) }
    ensures err { IfErr outcome (λ why. IsUnansweredBy why response.new) }
{
    match outcome {
        Ok(Replied::Whole(reply)) => end_with(response, reply.as_slice()),
        Ok(Replied::KeptOff(text)) => end_locked(response, text.as_slice()),
        Err(Unanswered::Memory) => end_without(response, StatusCode::INSUFFICIENT_STORAGE),
        Err(Unanswered::Unkept) => end_without(response, StatusCode::INTERNAL_SERVER_ERROR),
    }
}
