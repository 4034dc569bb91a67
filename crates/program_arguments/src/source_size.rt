//! How many places core storage has for a source.
ghost use Rattle.std.specs.Prelude.{◌≡◌, true, false};
ghost use Rattle.core_1401.specs.Storage.{is_core_size};
ghost use Rattle.program_arguments.specs.SourceSize.{is_refused, size_for};

use crate::call::DEFAULT_SIZE;
use autocoder_statements::{Language, size_asked};
use core_1401::Core;

/// Whether a size was given that no machine has.
pub fn is_refused(named: Option<u16>) -> bool
    ensures { result ≡ is_refused named }
{
    match named {
        Some(size) => !Core::is_size(size),
        None => false,
    }
}

/// How many places core storage has for a source in this language: those that are named, or else those that the source
/// asks for, or else 4,000.
pub fn size_for(named: Option<u16>, language: Language, source: &[u8]) -> u16
    requires { is_refused named ≡ false }
    ensures value { result ≡ size_for named language source.now }
    ensures core { is_core_size result ≡ true }
{
    if let Some(size) = named {
        return size;
    }
    size_asked(language, source).unwrap_or(DEFAULT_SIZE)
}
