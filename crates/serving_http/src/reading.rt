//! A request of a connection, read until it is whole, and its answer, sent until it is taken.
ghost use Rattle.std.specs.Prelude.{◌≡◌};
ghost use Rattle.http.specs.Request.{head_of};
ghost use Rattle.serving_http.specs.Visiting.{is_accepted, is_visit};

use crate::fields::has_field;
use crate::listening::page_config;
use crate::route::{Route, route_of};
use crate::sites::{Site, is_from_site};
use bytes::Bytes;
use bytes_descriptors::{Patient, linger};
use bytes_text::Text;
use http::Request;
use http_server::{Connection, Response, Service};
use std::alloc::{AllocError, AllocGlobal};
use std::hash::RandomState;
use std::io;
use std::io::{ErrorKind, Read, Write};
use std::net::TcpStream;
use std::random::RandomSource;
use std::time::Clock;

/// Where an answer has the first digit of its status, after `HTTP/1.1 `.
const STATUS_AT: usize = 9;

/// A request that has come whole.
#[derive(Drop)]
pub struct WholeRequest {
    /// All that its connection has sent.
    pub bytes: Vec<u8>,
    /// Whether it asks for a picture or brings lines, and comes from the page itself.
    pub is_visit: bool,
}

/// Whether a request asks for a picture or brings lines, and comes from the page of this site.
pub fn is_visit(request: &Request<Bytes>, site: &Site) -> bool
    ensures { result ≡ is_visit (head_of request.now) site.now }
{
    match route_of(request.method().as_str(), request.uri().path()) {
        // Its Origin says that it comes from the page, or its browser.
        Route::Picture | Route::Line | Route::Lines => {
            is_from_site(request, site) || has_field(request, "sec-fetch-site", b"same-origin")
        }
        Route::Page | Route::WrongMethod | Route::Unknown => false,
    }
}

/// Whether an answer has a status from 200 to 299.
pub fn is_accepted(answer: &[u8]) -> bool
    ensures { result ≡ is_accepted answer.now }
{
    answer.get(STATUS_AT) == Some(&b'2')
}

/// What a connection's request is, once it has come whole.
#[derive(Drop)]
struct Notice<'a> {
    site: &'a Site,
    is_whole: bool,
    is_visit: bool,
}

impl Service for Notice<'_> {
    ghost use Rattle.serving_http.specs.Visiting.{Notices};

    ghost answers = { λ old request _ new. Notices old.site.now request new.is_whole new.is_visit };

    fn call(
        &mut self,
        request: &Request<Bytes>,
        _response: &mut Response,
    ) -> Result<(), AllocError> {
        self.is_whole = true;
        self.is_visit = is_visit(request, self.site);
        Ok(())
    }
}

/// A stream, and all that was read of it.
#[derive(Drop)]
struct Recorder<'a, R: Clock> {
    stream: Patient<'a, R>,
    bytes: Text,
}

impl<R: Clock> Read for Recorder<'_, R> {
    fn read(&mut self, buf: &mut [u8]) -> io::Result<usize> {
        let read = self.stream.read(buf);
        if let Ok(count) = read {
            self.bytes.put(&buf[..count]);
        }
        read
    }
}

/// Reads the request of a connection to the page of this site, until it is whole. One that is refused for its form is
/// answered so, and then there is none.
///
/// # Errors
///
/// If the request doesn't come in time, its refusal isn't taken, or memory or random keys are refused.
pub fn read_request<R: AllocGlobal + RandomSource + Clock>(
    rt: &R,
    site: &Site,
    stream: &TcpStream,
) -> io::Result<Option<WholeRequest>> {
    stream.set_nodelay(true)?;
    let keys = RandomState::new(rt)?;
    let mut notice = Notice {
        site,
        is_whole: false,
        is_visit: false,
    };
    let mut reader = Recorder {
        stream: Patient::new(rt, stream),
        bytes: Text::new(rt.alloc()),
    };
    let read = take_turns(
        &mut Connection::new(rt.alloc(), keys, page_config()),
        &mut notice,
        &mut reader,
        &mut Patient::new(rt, stream),
    );
    read?;
    if !notice.is_whole {
        linger(rt, stream);
        return Ok(None);
    }
    Ok(Some(WholeRequest {
        bytes: reader.bytes.into_bytes()?,
        is_visit: notice.is_visit,
    }))
}

/// Reads and writes in turn, until the request is whole, or refused and answered.
fn take_turns<R: Clock>(
    connection: &mut Connection,
    notice: &mut Notice<'_>,
    reader: &mut Recorder<'_, R>,
    writer: &mut Patient<'_, R>,
) -> io::Result<()> {
    // A loop is proved to end, so this one counts its turns.
    for _ in 0..u64::MAX {
        connection.advance(notice);
        if notice.is_whole || connection.is_done() {
            return Ok(());
        }
        let done = if !connection.wants_write() {
            connection.read_from(reader)
        } else {
            match connection.write_to(writer) {
                Ok(0) => Err(ErrorKind::WriteZero.into()),
                done => done,
            }
        };
        done?;
    }
    Err(ErrorKind::TimedOut.into())
}

/// Sends the bytes of an answer.
///
/// # Errors
///
/// If they aren't taken in time.
pub fn send_answer<R: Clock>(clock: &R, stream: &TcpStream, answer: &[u8]) -> io::Result<()> {
    Patient::new(clock, stream).write_all(answer)
}
