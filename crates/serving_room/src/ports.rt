//! Listeners, and where they listen.
ghost use Rattle.std.specs.Prelude.{IfOk};
ghost use Rattle.serving_room.specs.Ports.{IsAt};

use std::io;
use std::marker::Model;
use std::net::{Ipv4Addr, Net, TcpListener, TcpStream};

/// A listener at an address of this machine. Contracts see the address.
#[derive(Drop)]
pub struct Listening {
    octets: [u8; 4],
    port: u16,
    listener: TcpListener,
}

impl Model for Listening {
    ghost use Rattle.serving_room.specs.Ports.{Address};

    ghost Value = { Address };

    ghost view = { λ it. record { octets = it.octets; port = it.port } };
}

impl Listening {
    /// Listens at the address of these octets, and at this port. This is the only place at which a port is opened.
    ///
    /// # Errors
    ///
    /// If the system refuses it.
    pub fn at(
        rt: &impl Net<Listener = TcpListener, Stream = TcpStream>,
        octets: [u8; 4],
        port: u16,
    ) -> io::Result<Listening>
        ensures { IfOk result (IsAt octets port) }
    {
        match TcpListener::bind(rt, (Ipv4Addr::from_octets(octets), port)) {
            Ok(listener) => Ok(Listening {
                octets,
                port,
                listener,
            }),
            Err(error) => Err(error),
        }
    }

    /// The listener.
    pub fn listener(&self) -> &TcpListener {
        &self.listener
    }
}
