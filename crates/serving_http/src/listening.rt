//! The requests of a page, one after the other.
ghost use Rattle.std.specs.Prelude.{◌≡◌, IfOk};
ghost use Rattle.serving_http.specs.Exchange.{AnswersBytes, Follows};
ghost use Rattle.serving_http.specs.Limits.{IsPageConfig};

use crate::exchange::answer;
use http_server::{Config, Service};
use std::alloc::AllocGlobal;
use std::hash::RandomState;
use std::io;
use std::random::RandomSource;
use std::sync::Wait;

/// The most bytes of the head of a request. A browser sends a page the cookies of all servers at the same address.
const MOST_HEAD_BYTES: usize = 16_384;

/// The most bytes of the body of a request: 190 lines that feed a whole card each, and more of shorter ones.
const MOST_BODY_BYTES: usize = 16_384;

/// The most bytes of a body that is one line: a line of the console has at most 200, and one that is longer is told so.
pub const MOST_LINE_BYTES: usize = 1024;

/// The most bytes of what a request may have beside these: extensions of chunks, and trailers.
const MOST_OTHER_BYTES: usize = 64;

/// Gives requests, one after the other, and takes their answers.
pub trait Requests {
    /// The bytes of the next connection, or `None` if no more are answered.
    fn next_request(&mut self) -> Option<Vec<u8>>;

    /// Takes the bytes of the answer to that request; or `None`, if memory was refused for it. What the request did
    /// stands.
    fn take_answer(&mut self, answer: Option<Vec<u8>>);
}

/// The limits of a page's requests.
pub fn page_config() -> Config
    ensures { IsPageConfig result }
{
    let mut config = Config::default();
    config.limits.max_head_len = MOST_HEAD_BYTES;
    config.limits.max_extensions_len = MOST_OTHER_BYTES;
    config.limits.max_trailers_len = MOST_OTHER_BYTES;
    config.max_body_len = MOST_BODY_BYTES;
    config
}

/// The bytes that answer those of a connection. Nobody is waited for.
///
/// # Errors
///
/// If memory or random keys are refused, or the bytes end before the connection is done. What the request did stands.
pub fn answer_bytes<R: AllocGlobal + RandomSource, S: Service>(
    rt: &R,
    service: &mut S,
    request: &[u8],
) -> io::Result<Vec<u8>>
    ensures whole { IfOk result (λ answer.
        AnswersBytes S.answers request.now answer.items service.old service.new) }
    ensures follows { Follows S.answers service.old service.new }
{
    let keys = RandomState::new(rt)?;
    let mut rest = request;
    let mut written = Vec::new(rt.alloc());
    answer(
        rt.alloc(),
        keys,
        page_config(),
        service,
        &mut rest,
        &mut written,
    )?;
    Ok(written)
}

/// Answers requests one after the other, to the last one. If memory is refused for an answer, what its request did
/// stays, and the next one is taken.
pub fn answer_each<R: AllocGlobal + RandomSource + Wait, S: Service, Q: Requests>(
    rt: &R,
    service: &mut S,
    requests: &mut Q,
)
    // Some requests, answered one after the other, lead from the one state of the service to the other.
    ensures { Follows S.answers service.old service.new }
{
    for _ in rt.forever() {
        let Some(request) = requests.next_request() else {
            return;
        };
        let answer = answer_bytes(rt, service, request.as_slice());
        requests.take_answer(answer.ok());
    }
}
