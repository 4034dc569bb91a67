//! How labels and literals are hashed.
ghost use Rattle.std.specs.Prelude.{◌≡◌};
ghost use Rattle.std.specs.Hash.DefaultHasher as sip;

use std::hash::{BuildHasher, DefaultHasher, Hasher};

/// Hashes by SipHash, which has read the whole source before it reads a label or a literal. So labels can't be chosen
/// to collide under a hash that is known beforehand: each choice is part of the source, and changes the hash.
#[derive(Clone, Copy)]
pub struct SourceHashing {
    /// The hasher that has read the source.
    pub beyond_source: DefaultHasher,
}

impl SourceHashing {
    /// The hashing of the labels and literals of a source.
    pub fn from_source(source: &[u8]) -> SourceHashing
        ensures { result.beyond_source ≡ sip.write sip.initial source.now }
    {
        let mut beyond_source = DefaultHasher::new();
        beyond_source.write(source);
        SourceHashing { beyond_source }
    }
}

impl BuildHasher for SourceHashing {
    type Hasher = DefaultHasher;

    ghost build_hasher = { λ hashing. hashing.beyond_source };

    fn build_hasher(&self) -> DefaultHasher {
        self.beyond_source
    }
}
