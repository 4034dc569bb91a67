//! What a page answers while a console sits at its seat.
ghost use Rattle.std.specs.Prelude.{OnOk};
ghost use Rattle.http_server.specs.Response.{IsBlank};
ghost use Rattle.serving_http.specs.Responses.{IsTaken};

use crate::responses::begin_text;
use bytes::Bytes;
use http::StatusCode;
use http_server::Response;
use std::alloc::AllocError;

/// Refuses a request by 503, since a console sits at the seat.
pub fn refuse_taken(response: &mut Response) -> Result<(), AllocError>
    requires { IsBlank response.old }
    ensures { OnOk result (IsTaken response.new) }
{
    begin_text(response)?;
    response.status = StatusCode::SERVICE_UNAVAILABLE;
    response
        .body
        .push(Bytes::from_static(b"a console sits at this seat\n"))
}
