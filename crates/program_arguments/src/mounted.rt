//! The file of a reel, and its ring.
ghost use Rattle.std.specs.Prelude.{◌≡◌, option_map};
ghost use Rattle.program_arguments.specs.Mounted.{file_of, has_ring};

use crate::call::ReelSource;

impl ReelSource {
    /// The name of its file, which is read, written, or both; without one it has none.
    pub fn file(&self) -> Option<&str>
        ensures { option_map (λ name. name.now) result ≡ file_of self.now }
    {
        match self {
            ReelSource::File(name) | ReelSource::Ringed(name) | ReelSource::New(name) => Some(
                name.as_str(),
            ),
            ReelSource::Scratch => None,
        }
    }

    /// Whether it has a ring: a program can write on it, and its file, if it has one, is written when the job has ended.
    pub fn has_ring(&self) -> bool
        ensures { result ≡ has_ring self.now }
    {
        match self {
            ReelSource::File(_) => false,
            ReelSource::Ringed(_) | ReelSource::New(_) | ReelSource::Scratch => true,
        }
    }
}
