//! Origins: by which scheme, host and port a browser reaches a page.
ghost use Rattle.std.specs.Prelude.{◌≡◌, [], true, map, IfOk, IsTrue};
ghost use Rattle.std.specs.Char.{to_ascii_lowercase};
ghost use Rattle.bytes_text.specs.Written.{Adds};
ghost use Rattle.serving_http.specs.Origins.{host_at, is_text_of, origin_at, port_text, scheme_text, usual_port};
ghost use Rattle.serving_http.specs.Origins.{IsFurtherIf};

use bytes_text::Text;
use std::alloc::{AllocError, Global};
use std::fmt;
use std::net::{Ipv4Addr, Ipv6Addr};
use thiserror::Error;

/// The most bytes of a host's name, and of a part of it between dots.
const MOST_NAME_BYTES: usize = 253;

const MOST_LABEL_BYTES: usize = 63;

/// By what a browser reaches a page.
#[derive(Clone, Copy)]
pub enum Scheme {
    /// Without TLS: `http:`
    Http,
    /// With TLS: `https:`
    Https,
}

/// Where a browser finds a page, as `https://1401.museum.example:8443`.
#[derive(Drop)]
pub struct Origin {
    /// By what it reaches the page.
    pub scheme: Scheme,
    /// The host: a name in small letters, an IPv4 address, or an IPv6 address in brackets.
    pub host: String,
    /// The port, from 1 on.
    pub port: u16,
}

/// Why a text isn't that of an origin.
#[derive(Clone, Copy, Debug, Error)]
pub enum OriginFault {
    /// It begins with no scheme that a page is reached by.
    #[error("it has to begin with http:// or https://")]
    Scheme,
    /// It has more than a scheme, a host and a port: a path, if only `/`, a query, a fragment or a user.
    #[error("nothing may come after the host and the port, not even a /")]
    More,
    /// Its host is no name, no IPv4 address, and no IPv6 address in brackets as browsers write it.
    #[error("its host has to be a name, an IPv4 address, or an IPv6 address in brackets, as browsers write it")]
    Host,
    /// Its port isn't 1 to 65535, in digits without leading zeros.
    #[error("its port has to be 1 to 65535")]
    Port,
    /// The memory for it was refused.
    #[error("memory refused")]
    Memory,
}

impl From<AllocError> for OriginFault {
    fn from(_: AllocError) -> OriginFault {
        OriginFault::Memory
    }
}

impl Scheme {
    /// The port that a browser leaves out.
    fn usual_port(self) -> u16
        ensures { result ≡ usual_port self }
    {
        match self {
            Scheme::Http => 80,
            Scheme::Https => 443,
        }
    }

    /// What an origin begins with.
    fn text(self) -> &'static str
        ensures { result.now ≡ scheme_text self }
    {
        match self {
            Scheme::Http => "http://",
            Scheme::Https => "https://",
        }
    }
}

impl fmt::Display for Origin {
    fn fmt<W: fmt::Write>(&self, f: &mut fmt::Formatter<W>) -> fmt::Result {
        let scheme = self.scheme.text();
        let host = self.host.as_str();
        if self.port == self.scheme.usual_port() {
            return write!(f, "{scheme}{host}");
        }
        let port = self.port;
        write!(f, "{scheme}{host}:{port}")
    }
}

/// Adds a port, as it comes after a host.
fn put_port(text: &mut Text, port: u16)
    ensures { Adds text.old text.new (port_text port) }
{
    text.put_byte(b':');
    text.put_number(1, u64::from(port));
}

/// Adds the host of an origin, and its port if it isn't the usual one: the `Host` of a request to it.
pub fn put_host(text: &mut Text, origin: &Origin)
    ensures { Adds text.old text.new (host_at origin.now) }
{
    text.put(origin.host.as_bytes());
    if origin.port != origin.scheme.usual_port() {
        put_port(text, origin.port);
    }
}

/// Adds the `Origin` of a request of a page there.
pub fn put_origin(text: &mut Text, origin: &Origin)
    ensures { Adds text.old text.new (origin_at origin.now) }
{
    text.put(origin.scheme.text().as_bytes());
    put_host(text, origin);
}

/// Whether a text is that of an origin, as browsers write it, or with its port. It is written into `written`.
fn is_text_of(written: &mut Text, text: &[u8], origin: &Origin) -> bool
    requires { written.old.items ≡ [] }
    ensures { IsTrue written.new.is_whole → result ≡ is_text_of text.now origin.now }
{
    put_origin(written, origin);
    if text == written.as_slice() || origin.port != origin.scheme.usual_port() {
        return text == written.as_slice();
    }
    put_port(written, origin.port);
    text == written.as_slice()
}

/// The same origin at a port that is so many places further on; or none, if that is beyond 65535.
///
/// # Errors
///
/// If the memory for it is refused.
pub fn origin_after(
    alloc: Global,
    origin: &Origin,
    places: u8,
) -> Result<Option<Origin>, AllocError>
    ensures { IfOk result (λ further. IsFurtherIf origin.now places further) }
{
    let Some(port) = origin.port.checked_add(u16::from(places)) else {
        return Ok(None);
    };
    Ok(Some(Origin {
        scheme: origin.scheme,
        host: String::from_str(alloc, origin.host.as_str())?,
        port,
    }))
}

/// The origin that a text names: a scheme, a host, and perhaps a port, in letters of either case; the port is the usual
/// one of the scheme if none is named. Nothing comes after it.
///
/// # Errors
///
/// Each of `OriginFault`: a scheme that isn't known comes before more than an origin, and that before a host that is
/// none and a port that is none.
pub fn read_origin(alloc: Global, text: &str) -> Result<Origin, OriginFault>
    ensures { IfOk result (λ origin. is_text_of (map to_ascii_lowercase text.now) origin ≡ true) }
{
    let text = text.to_ascii_lowercase(alloc)?;
    let origin = parts_of(alloc, text.as_str())?;

    // Only the port can be written in another way: with zeros or a sign before it.
    let mut written = Text::new(alloc);
    let is_its_text = is_text_of(&mut written, text.as_bytes(), &origin);
    if !written.is_whole() {
        Err(OriginFault::Memory)
    } else if is_its_text && origin.port > 0 {
        Ok(origin)
    } else {
        Err(OriginFault::Port)
    }
}

/// The scheme, the host and the port of an origin in small letters. A port that is none is 0.
fn parts_of(alloc: Global, text: &str) -> Result<Origin, OriginFault> {
    let (scheme, rest) = if let Some(rest) = text.strip_prefix("https://") {
        (Scheme::Https, rest)
    } else if let Some(rest) = text.strip_prefix("http://") {
        (Scheme::Http, rest)
    } else {
        return Err(OriginFault::Scheme);
    };
    let (host, digits) = host_and_digits(alloc, rest)?;
    let port = match digits {
        Some(digits) => digits.parse::<u16>().unwrap_or(0),
        None => scheme.usual_port(),
    };
    let host = String::from_str(alloc, host)?;
    Ok(Origin { scheme, host, port })
}

/// The host of an origin, and the digits of the port after it, if there is one.
fn host_and_digits(alloc: Global, text: &str) -> Result<(&str, Option<&str>), OriginFault> {
    if text
        .as_bytes()
        .iter()
        .any(|byte| matches!(*byte, b'/' | b'?' | b'#' | b'@'))
    {
        return Err(OriginFault::More);
    }
    if text.starts_with('[') {
        bracketed_host(alloc, text)
    } else {
        named_host(text)
    }
}

/// A host that is a name or an IPv4 address, and the digits of the port after it, if there is one.
fn named_host(text: &str) -> Result<(&str, Option<&str>), OriginFault> {
    let (name, port) = match text.split_once(':') {
        Some((name, port)) => (name, Some(port)),
        None => (text, None),
    };
    if is_name(name) {
        Ok((name, port))
    } else {
        Err(OriginFault::Host)
    }
}

/// A host that is an IPv6 address in brackets, and the digits of the port after it, if there is one.
fn bracketed_host(alloc: Global, text: &str) -> Result<(&str, Option<&str>), OriginFault> {
    let Some((bracketed, after)) = text.split_once(']') else {
        return Err(OriginFault::Host);
    };
    let (Some(address), Some(host)) = (bracketed.strip_prefix("["), text.strip_suffix(after)) else {
        return Err(OriginFault::Host);
    };
    if !is_ipv6(alloc, address)? {
        return Err(OriginFault::Host);
    }
    match after.strip_prefix(":") {
        Some(port) => Ok((host, Some(port))),
        None if after.is_empty() => Ok((host, None)),
        None => Err(OriginFault::Host),
    }
}

/// Whether a text is the name of a host, or an IPv4 address: browsers take a name that ends in a number for one.
fn is_name(text: &str) -> bool {
    let mut ends_in_number = false;
    for label in text.split('.') {
        if !is_label(label) {
            return false;
        }
        ends_in_number = label.as_bytes().iter().all(|byte| byte.is_ascii_digit());
    }
    text.len() <= MOST_NAME_BYTES && (!ends_in_number || text.parse::<Ipv4Addr>().is_ok())
}

/// Whether a text is a part of a host's name: small letters, digits and hyphens.
fn is_label(text: &str) -> bool {
    let is_allowed = text
        .as_bytes()
        .iter()
        .all(|byte| matches!(*byte, b'a'..=b'z' | b'0'..=b'9' | b'-'));
    is_allowed && !text.is_empty() && text.len() <= MOST_LABEL_BYTES
}

/// Whether a text is an IPv6 address as browsers write it: in its shortest form, and without an IPv4 address in it.
fn is_ipv6(alloc: Global, text: &str) -> Result<bool, AllocError> {
    let Ok(address) = text.parse::<Ipv6Addr>() else {
        return Ok(false);
    };
    let shortest = format!(in alloc; "{address}")?;

    // That form has an IPv4 address in it for a few addresses, for which browsers write hexadecimal digits.
    Ok(!text.contains('.') && (shortest.as_str() == text || shortest.as_str().contains('.')))
}
