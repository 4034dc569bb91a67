//! What a request asks for, by its method and its path.
ghost use Rattle.std.specs.Prelude.{◌≡◌};
ghost use Rattle.serving_http.specs.Route.{by_method, route_of};

/// What a request asks for.
#[derive(Clone, Copy)]
pub enum Route {
    /// The page itself: GET /
    Page,
    /// A picture of the machine: GET /picture
    Picture,
    /// A console line to be answered: POST /line
    Line,
    /// Console lines to be answered one after the other: POST /lines
    Lines,
    /// A path that is known, by a method that it doesn't have.
    WrongMethod,
    /// A path that isn't known.
    Unknown,
}

/// The route, if its one method is the one that was used.
fn by_method(method: &str, wanted: &str, route: Route) -> Route
    ensures { result ≡ by_method method.now wanted.now route }
{
    if method == wanted {
        route
    } else {
        Route::WrongMethod
    }
}

/// What a request of this method and this path asks for.
pub fn route_of(method: &str, path: &str) -> Route
    ensures { result ≡ route_of method.now path.now }
{
    match path {
        "/" => by_method(method, "GET", Route::Page),
        "/picture" => by_method(method, "GET", Route::Picture),
        "/line" => by_method(method, "POST", Route::Line),
        "/lines" => by_method(method, "POST", Route::Lines),
        _ => Route::Unknown,
    }
}
