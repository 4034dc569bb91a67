//! The console alone: one session on a machine of 4,000 places, as `ibm1401 console` holds it, in a program that needs
//! nothing else and so is proved and built in minutes.
#![tactic(auto)]

use bytes_streams::{FromReader, ToWriter};
use core_1401::SIZES;
use room_alone::console;
use std::io;
use std::process::ExitCode;

/// The size of core storage, which is `ibm1401`'s if none is named.
const SIZE: u16 = SIZES[2];

fn main(rt: HostRuntime) -> ExitCode {
    let mut reader = FromReader::new(rt.reader());
    let mut writer = ToWriter::new(io::writer(&rt));
    match console(rt.alloc(), SIZE, &mut reader, &mut writer) {
        Ok(()) => ExitCode::from(0),
        Err(fault) => {
            let _ = eprintln!(rt; "ibm1401: {fault}");
            ExitCode::from(1)
        }
    }
}
