//! What a request is answered that is for another host than the page's.
ghost use Rattle.std.specs.Prelude.{option_copied, OnOk};
ghost use Rattle.bytes_text.specs.Written.{Adds};
ghost use Rattle.http_server.specs.Response.{IsBlank};
ghost use Rattle.serving_page.specs.Elsewhere.{outside_part, TellsAddress};

use bytes::BufMut;
use bytes_text::{Piece, Text};
use http::StatusCode;
use http_server::Response;
use serving_http::{Origin, Site, begin_text, put_origin};
use std::alloc::{AllocError, Global};

/// Adds the origin outside, if there is one.
fn put_outside(text: &mut Text, outside: Option<&Origin>)
    ensures { Adds text.old text.new (outside_part (option_copied outside.entry)) }
{
    if let Some(outside) = outside {
        text.put(b" or ");
        put_origin(text, outside);
        text.put_byte(b'/');
    }
}

/// Refuses a request that is for another host, as `localhost` is, and says where the page is.
///
/// # Errors
///
/// If the memory for that is refused.
pub fn tell_address(alloc: Global, site: &Site, response: &mut Response) -> Result<(), AllocError>
    requires { IsBlank response.old }
    ensures { OnOk result (TellsAddress site.now response.new) }
{
    let mut text = Text::new(alloc);
    text.put_pieces(&[
        Piece::Text(b"this page is at http://127.0.0.1:"),
        Piece::Number(1, site.port()),
        Piece::Byte(b'/'),
    ]);
    put_outside(&mut text, site.outside());
    text.put_byte(b'\n');
    let text = text.into_bytes()?;
    begin_text(response)?;
    response.status = StatusCode::FORBIDDEN;
    response.body.put_slice(text.as_slice())
}
