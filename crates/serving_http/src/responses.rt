//! What a response has: its status, its fields and its body.
ghost use Rattle.std.specs.Prelude.{◌≡◌, ◌≢◌, ◌∷◌, [], ◌++◌, IsTrue, OnOk};
ghost use Rattle.http_header.specs.FieldName.{is_header_name};
ghost use Rattle.http_header.specs.FieldValue.{is_visible_text};
ghost use Rattle.http_server.specs.Response.{fields_of, IsBlank, IsResponse};
ghost use Rattle.serving_http.specs.Responses.{common_fields, page_fields, text_fields, IsRefused, IsText};

use bytes::{BufMut, Bytes};
use http::{HeaderName, HeaderValue, StatusCode};
use http_server::Response;
use std::alloc::AllocError;

/// A page in two parts, and what its browser may do with it.
#[derive(Clone, Copy)]
pub struct Document {
    /// The first part of its text.
    pub first: &'static [u8],
    /// The rest of its text.
    pub rest: &'static [u8],
    /// Its `content-security-policy`.
    pub policy: &'static str,
}

/// Adds a field.
fn put_field(
    response: &mut Response,
    name: &'static str,
    value: &'static str,
) -> Result<(), AllocError>
    requires name { IsTrue (is_header_name name.now) }
    requires value { IsTrue (is_visible_text value.now) }
    ensures fields { OnOk result (fields_of response.new ≡ fields_of response.old ++ (name.now, value.now) ∷ []) }
    ensures status { response.new.status ≡ response.old.status }
    ensures body { response.new.body ≡ response.old.body }
{
    response.add_header(
        HeaderName::from_static(name),
        HeaderValue::from_static(value),
    )
}

/// Adds the fields that each response has: it isn't kept, its type isn't guessed, no other page is sent its address,
/// and its connection ends.
fn put_common_fields(response: &mut Response) -> Result<(), AllocError>
    ensures fields { OnOk result (fields_of response.new ≡ fields_of response.old ++ common_fields) }
    ensures status { response.new.status ≡ response.old.status }
    ensures body { response.new.body ≡ response.old.body }
{
    put_field(response, "cache-control", "no-store")
        .and(put_field(response, "x-content-type-options", "nosniff"))
        .and(put_field(response, "referrer-policy", "no-referrer"))
        .and(put_field(response, "connection", "close"))
}

/// Refuses a request by a status.
pub fn refuse(response: &mut Response, status: StatusCode) -> Result<(), AllocError>
    requires { IsBlank response.old }
    ensures { OnOk result (IsRefused status response.new) }
{
    response.status = status;
    put_common_fields(response)
}

/// Fills in the page and what its browser may do with it.
pub fn put_page(response: &mut Response, document: &Document) -> Result<(), AllocError>
    requires blank { IsBlank response.old }
    requires policy { IsTrue (is_visible_text document.now.policy.now) }
    ensures { OnOk result (IsResponse 200 (page_fields document.now.policy.now)
        (document.now.first.now ++ document.now.rest.now) response.new) }
{
    put_field(response, "content-type", "text/html; charset=utf-8")
        .and(put_field(response, "content-security-policy", document.policy))
        .and(put_common_fields(response))
        .and(response.body.push(Bytes::from_static(document.first)))
        .and(response.body.push(Bytes::from_static(document.rest)))
}

/// Adds the fields of a text, before it is known.
pub fn begin_text(response: &mut Response) -> Result<(), AllocError>
    requires { IsBlank response.old }
    ensures { OnOk result (IsResponse 200 text_fields [] response.new) }
{
    put_field(response, "content-type", "text/plain; charset=utf-8").and(put_common_fields(
        response,
    ))
}

/// Ends a response without a text.
pub fn end_without(response: &mut Response, status: StatusCode)
    requires { IsResponse 200 text_fields [] response.old }
    ensures { IsResponse status text_fields [] response.new }
{
    response.status = status;
}

/// Ends a response with its text; or with 507 and none, if the memory for it is refused.
pub fn end_with(response: &mut Response, text: &[u8])
    requires { IsResponse 200 text_fields [] response.old }
    ensures { IsText text.now response.new }
{
    if response.body.put_slice(text).is_err() {
        response.body.clear();
        response.status = StatusCode::INSUFFICIENT_STORAGE;
    }
}
