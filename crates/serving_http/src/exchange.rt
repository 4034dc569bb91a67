//! A whole connection of HTTP, over any service, reader and writer.
ghost use Rattle.std.specs.Prelude.{◌≡◌, OnOk};
ghost use Rattle.http_server.specs.Connection.{config_of, history};
ghost use Rattle.http_server.specs.History.{new_history};
ghost use Rattle.serving_http.specs.Exchange.{Follows, IsWholeConnection};

use http_server::{Config, Connection, Service, serve};
use std::alloc::Global;
use std::hash::RandomState;
use std::io;
use std::io::{Read, Write};

/// Answers the requests of a new connection, until it is done.
fn answer_new<S: Service, I: Read, O: Write>(
    connection: &mut Connection,
    service: &mut S,
    reader: &mut I,
    writer: &mut O,
) -> io::Result<()>
    requires { history connection.old ≡ new_history }
    ensures whole { OnOk result (IsWholeConnection S.answers (config_of connection.old) service.old service.new
        (I.remaining reader.old) (I.remaining reader.new) (O.contents writer.old) (O.contents writer.new)) }
    ensures follows { Follows S.answers service.old service.new }
{
    serve(connection, service, reader, writer)
}

/// Answers the requests of a connection from its first byte on, until it is done.
///
/// # Errors
///
/// If a read or a write fails, or comes to its end before the connection is done. What the requests did stands.
pub fn answer<S: Service, I: Read, O: Write>(
    alloc: Global,
    keys: RandomState,
    config: Config,
    service: &mut S,
    reader: &mut I,
    writer: &mut O,
) -> io::Result<()>
    // What was read is requests of HTTP, in the one way of its grammar, and what was written answers them in order.
    ensures whole { OnOk result (IsWholeConnection S.answers config service.old service.new
        (I.remaining reader.old) (I.remaining reader.new) (O.contents writer.old) (O.contents writer.new)) }

    // Whether or not it ended well, requests lead from the one state of the service to the other.
    ensures follows { Follows S.answers service.old service.new }
{
    let mut connection = Connection::new(alloc, keys, config);
    answer_new(&mut connection, service, reader, writer)
}
