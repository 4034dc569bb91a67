//! The page of a seat at which a console sits.
ghost use Rattle.std.specs.Prelude.{◌≡◌, ◌++◌, IsTrue};
ghost use Rattle.http.specs.Request.{head_of};
ghost use Rattle.http_header.specs.FieldValue.{is_visible_text};
ghost use Rattle.serving_page.specs.TakenPage.{asks_for_page, is_page};

use bytes::Bytes;
use http::Request;
use http_server::{Response, Service};
use serving_http::{
    Document, Route, Site, is_ambiguous, is_for_site, put_page, refuse_taken, route_of,
};
use std::alloc::AllocError;
use std::marker::Model;

/// The page of a seat at which a console sits. Its text is served: it says so, and takes the seat when it is free. Each
/// other request is refused by 503. Contracts see where the page is, its text, and what its browser may do
/// with it.
#[derive(Drop)]
pub struct TakenPage<'a> {
    site: &'a Site,
    document: Document,
}

impl<'a> Model for TakenPage<'a> {
    ghost use Rattle.std.specs.Prelude.{◌++◌, IsTrue};
    ghost use Rattle.http_header.specs.FieldValue.{is_visible_text};
    ghost use Rattle.serving_page.specs.TakenPage.{TakenPageView};

    ghost Value = { TakenPageView };

    ghost view = { λ s. record {
      site = s.site.now;
      page = s.document.first.now ++ s.document.rest.now;
      policy = s.document.policy.now;
    } };

    ghost invariant = { λ s. IsTrue (is_visible_text s.document.policy.now) };
}

impl<'a> TakenPage<'a> {
    /// The page that is served where this site is.
    pub fn new(site: &'a Site, document: &Document) -> TakenPage<'a>
        requires { IsTrue (is_visible_text document.now.policy.now) }
        ensures { result ≡ record {
          site = site.now;
          page = document.now.first.now ++ document.now.rest.now;
          policy = document.now.policy.now;
        } }
    {
        TakenPage {
            site,
            document: *document,
        }
    }
}

/// Whether a route is that of the page's text.
fn is_page(route: Route) -> bool
    ensures { result ≡ is_page route }
{
    match route {
        Route::Page => true,
        Route::Picture => false,
        Route::Line => false,
        Route::Lines => false,
        Route::WrongMethod => false,
        Route::Unknown => false,
    }
}

/// Whether a request asks for the text of the page of this site.
fn asks_for_page(request: &Request<Bytes>, site: &Site) -> bool
    ensures { result ≡ asks_for_page (head_of request.now) site.now }
{
    is_for_site(request, site)
        && !is_ambiguous(request)
        && is_page(route_of(request.method().as_str(), request.uri().path()))
}

impl Service for TakenPage<'_> {
    ghost use Rattle.serving_page.specs.TakenPage.{AnswersTaken};

    ghost answers = { AnswersTaken };

    fn call(
        &mut self,
        request: &Request<Bytes>,
        response: &mut Response,
    ) -> Result<(), AllocError> {
        if asks_for_page(request, self.site) {
            return put_page(response, &self.document);
        }
        refuse_taken(response)
    }
}
