//! Where a page is, and which requests are for it and from it.
ghost use Rattle.std.specs.Prelude.{◌≡◌, option_copied, IfOk};
ghost use Rattle.http.specs.Request.{head_of};
ghost use Rattle.serving_http.specs.Sites.{is_for_site, is_from_site, is_within};

use crate::fields::{has_field, is_for};
use crate::origins::{Origin, put_host, put_origin};
use bytes::Bytes;
use bytes_text::Text;
use http::Request;
use std::alloc::{AllocError, Global};
use std::marker::Model;

/// An outside origin, with the `Host` and the `Origin` that name it. Contracts see the origin.
#[derive(Drop)]
struct Outside {
    from: Origin,
    host: Text,
    origin: Text,
}

impl Model for Outside {
    ghost use Rattle.std.specs.Prelude.{◌≡◌};
    ghost use Rattle.serving_http.specs.declared.origins.Origin.{Origin};
    ghost use Rattle.serving_http.specs.Origins.{host_at, origin_at};

    ghost Value = { Origin };

    ghost view = { λ s. s.from };

    ghost invariant = { λ s. (s.host.items ≡ host_at s.from) × (s.origin.items ≡ origin_at s.from) };
}

/// Where a page is: at a port of 127.0.0.1, and, if a proxy brings it to others, at an origin outside. Contracts see
/// both.
#[derive(Drop)]
pub struct Site {
    port: u16,
    host: Text,
    origin: Text,
    outside: Option<Outside>,
}

impl Model for Site {
    ghost use Rattle.std.specs.Prelude.{◌≡◌};
    ghost use Rattle.serving_http.specs.Fields.{host_of, origin_of};
    ghost use Rattle.serving_http.specs.Sites.{SiteView};

    ghost Value = { SiteView };

    ghost view = { λ s. record { port = s.port; outside = s.outside } };

    ghost invariant = { λ s. (s.host.items ≡ host_of s.port) × (s.origin.items ≡ origin_of s.port) };
}

/// An outside origin with its names.
fn outside_of(alloc: Global, from: Origin) -> Result<Outside, AllocError>
    ensures { IfOk result (λ outside. outside ≡ from) }
{
    let mut host = Text::new(alloc);
    put_host(&mut host, &from);
    let mut origin = Text::new(alloc);
    put_origin(&mut origin, &from);
    if host.is_whole() && origin.is_whole() {
        Ok(Outside { from, host, origin })
    } else {
        Err(AllocError)
    }
}

/// Whether the `Host` and the `Origin` of a request are these.
fn is_within(request: &Request<Bytes>, host: &[u8], origin: &[u8]) -> bool
    ensures { result ≡ is_within (head_of request.now) host.now origin.now }
{
    is_for(request, host) && has_field(request, "origin", origin)
}

impl Site {
    /// A page at a port of 127.0.0.1, which a proxy brings to others at an outside origin, if one is named. Not for
    /// port 80, which a browser leaves out of what it sends.
    ///
    /// # Errors
    ///
    /// If the memory for its names is refused.
    pub fn new(alloc: Global, port: u16, outside: Option<Origin>) -> Result<Site, AllocError>
        ensures { IfOk result (λ site. site ≡ record { port = port; outside = outside }) }
    {
        let outside = match outside {
            Some(from) => Some(outside_of(alloc, from)?),
            None => None,
        };
        let mut host = Text::new(alloc);
        host.put(b"127.0.0.1:");
        host.put_number(1, u64::from(port));
        let mut origin = Text::new(alloc);
        origin.put(b"http://127.0.0.1:");
        origin.put_number(1, u64::from(port));
        if host.is_whole() && origin.is_whole() {
            Ok(Site {
                port,
                host,
                origin,
                outside,
            })
        } else {
            Err(AllocError)
        }
    }

    /// The port on 127.0.0.1.
    pub fn port(&self) -> u16
        ensures { result ≡ self.now.port }
    {
        self.port
    }

    /// The origin outside, if there is one.
    pub fn outside(&self) -> Option<&Origin>
        ensures { option_copied result ≡ self.now.outside }
    {
        match &self.outside {
            Some(outside) => Some(&outside.from),
            None => None,
        }
    }
}

/// Whether a request is for the page of a site: its `Host` is that of the port, or that of the outside origin.
pub fn is_for_site(request: &Request<Bytes>, site: &Site) -> bool
    ensures { result ≡ is_for_site (head_of request.now) site.now }
{
    match &site.outside {
        None => is_for(request, site.host.as_slice()),
        Some(outside) => is_for(request, site.host.as_slice())
            || is_for(request, outside.host.as_slice()),
    }
}

/// Whether a request comes from the page of a site: its `Origin` is that of the port; if there is an outside origin,
/// `Host` and `Origin` are both those of the port, or both those of the outside origin.
pub fn is_from_site(request: &Request<Bytes>, site: &Site) -> bool
    ensures { result ≡ is_from_site (head_of request.now) site.now }
{
    match &site.outside {
        None => has_field(request, "origin", site.origin.as_slice()),
        Some(outside) => {
            is_within(request, site.host.as_slice(), site.origin.as_slice())
                || is_within(request, outside.host.as_slice(), outside.origin.as_slice())
        }
    }
}
