//! A picture of the machine, as a request asks for one.
ghost use Rattle.std.specs.Prelude.{◌≡◌, ◌++◌, [], IfOk, OnOk, OnErr, option_copied};
ghost use Rattle.bytes_text.specs.Written.{Adds};
ghost use Rattle.http_server.specs.Response.{IsBlank, IsResponse};
ghost use Rattle.serving_http.specs.Responses.{text_fields};
ghost use Rattle.serving_page.specs.Asked.{ampersand};
ghost use Rattle.serving_page.specs.PictureLines.{picture_text};
ghost use Rattle.serving_page.specs.Pieces.{pieces_in};
ghost use Rattle.serving_page.specs.Showing.{IsSightTold, Sees, ShowsAsked, ShowsPicture, asked_here};
ghost use Rattle.serving_page.specs.Showing.{has_seen, heading};

use crate::asked::{Asked, asked_in};
use crate::picture_lines::put_picture;
use bytes_text::{Piece, Text};
use http::StatusCode;
use http_server::Response;
use room_1401::{GlanceFault, Picture, RoomId, Seat};
use serving_http::{begin_text, end_with, end_without, refuse};
use std::alloc::{AllocError, Global};

/// What looking at the machine came to.
#[derive(Drop)]
pub enum Sight {
    /// The text of the picture.
    Text(Vec<u8>),
    /// No command was carried out since the picture that the page has.
    Same,
    /// The window isn't in core.
    NotInCore,
    /// Nothing is published any more.
    Gone,
    /// The memory for the text was refused.
    NoMemory,
}

/// Whether the picture that the page has is after this number of commands.
fn has_seen(after: Option<u32>, count: u64) -> bool
    ensures { result ≡ has_seen after count }
{
    match after {
        Some(after) => u64::from(after) == count,
        None => false,
    }
}

/// What a page asks for in the room of this name: a picture of another room is none that it has.
fn asked_here(room: Option<&[u8]>, name: &[u8], asked: Asked) -> Asked
    ensures { result ≡ asked_here (option_copied room.entry) name.now asked }
{
    match room {
        Some(room) => {
            if room == name {
                asked
            } else {
                Asked {
                    window: asked.window,
                    after: None,
                }
            }
        }
        None => asked,
    }
}

/// Adds the name of the room, if the page has named one.
#[tactic(auto, unfolding(crate::specs::PictureLines::room_line))]
fn put_heading(text: &mut Text, room: Option<&[u8]>, name: &[u8])
    ensures { Adds text.old text.new (heading (option_copied room.entry) name.now) }
{
    match room {
        Some(_) => {
            text.put_pieces(&[Piece::Text(b"ROOM "), Piece::Text(name), Piece::Byte(b'\n')]);
        }
        None => {}
    }
}

/// The text of a picture, after the name of the room, if the page has named one.
fn text_of(
    alloc: Global,
    room: Option<&[u8]>,
    name: &[u8],
    number: u8,
    seats: u8,
    made: u64,
    picture: &Picture,
) -> Result<Vec<u8>, AllocError>
    ensures { IfOk result (λ text.
        text.items ≡ heading (option_copied room.entry) name.now ++ picture_text number seats made picture.now) }
{
    let mut text = Text::new(alloc);
    put_heading(&mut text, room, name);
    put_picture(alloc, &mut text, number, seats, made, picture);
    text.into_bytes()
}

/// Takes a picture at a seat, with the name of the room, if the page has named one.
fn look<J: RoomId>(
    alloc: Global,
    seat: &mut Seat<J>,
    seats: u8,
    room: Option<&[u8]>,
    name: &[u8],
    asked: Asked,
) -> Sight
    ensures { Sees J.size seats (heading (option_copied room.entry) name.now) asked seat.old result seat.new }
{
    match seat.picture(asked.window) {
        Ok(picture) => {
            if has_seen(asked.after, picture.after) {
                return Sight::Same;
            }
            match text_of(
                alloc,
                room,
                name,
                seat.number(),
                seats,
                seat.made(),
                &picture,
            ) {
                Ok(text) => Sight::Text(text),
                Err(_) => Sight::NoMemory,
            }
        }
        Err(GlanceFault::Range) => Sight::NotInCore,
        Err(GlanceFault::Gone) => Sight::Gone,
    }
}

/// Fills in what looking came to.
fn tell_sight(response: &mut Response, sight: &Sight)
    requires { IsResponse 200 text_fields [] response.old }
    ensures { IsSightTold sight.now response.new }
{
    match sight {
        Sight::Text(text) => end_with(response, text.as_slice()),
        Sight::Same => end_without(response, StatusCode::NO_CONTENT),
        Sight::NotInCore => end_without(response, StatusCode::NOT_FOUND),
        Sight::Gone => end_without(response, StatusCode::GONE),
        Sight::NoMemory => end_without(response, StatusCode::INSUFFICIENT_STORAGE),
    }
}

/// Answers a request for a picture in the room of this name: by what looking comes to, unless it asks for none.
fn show_asked<J: RoomId>(
    alloc: Global,
    seat: &mut Seat<J>,
    seats: u8,
    name: &[u8],
    room: Option<&[u8]>,
    asked: Option<Asked>,
    response: &mut Response,
) -> Result<(), AllocError>
    requires { IsBlank response.old }
    ensures ok { OnOk result (ShowsAsked J.size seats name.now (option_copied room.entry) asked
        seat.old response.new seat.new) }
    ensures err { OnErr result (seat.new ≡ seat.old) }
{
    let Some(asked) = asked else {
        return refuse(response, StatusCode::BAD_REQUEST);
    };
    begin_text(response)?;
    let sight = look(
        alloc,
        seat,
        seats,
        room,
        name,
        asked_here(room, name, asked),
    );
    tell_sight(response, &sight);
    Ok(())
}

/// Answers a request for a picture at a seat, which is one of this many of the room of this name.
pub(crate) fn show_picture<J: RoomId>(
    alloc: Global,
    seat: &mut Seat<J>,
    seats: u8,
    name: &[u8],
    query: Option<&str>,
    response: &mut Response,
) -> Result<(), AllocError>
    requires { IsBlank response.old }
    ensures ok { OnOk result (ShowsPicture J.size seats name.now (pieces_in ampersand (option_copied query.entry))
        seat.old response.new seat.new) }
    ensures err { OnErr result (seat.new ≡ seat.old) }
{
    match query {
        Some(query) => {
            let (room, asked) = asked_in(query.as_bytes());
            show_asked(alloc, seat, seats, name, room, asked, response)
        }
        None => show_asked(alloc, seat, seats, name, None, None, response),
    }
}
