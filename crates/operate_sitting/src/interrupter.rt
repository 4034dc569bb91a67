//! A person who interrupts what takes long.
ghost use Rattle.std.specs.Prelude.{◌≡◌, Bool, true};

/// Who may interrupt what takes long, at a console of this type.
pub trait Interrupter<C> {
    // What holds of it and its console whenever it is asked, as that no read has failed.
    ghost is_sound: { Self → C → Bool };

    /// Whether what is being done is to end here. Nothing is claimed of when that is.
    fn interrupts(&mut self, console: &mut C) -> bool
        requires { is_sound self.old console.old ≡ true }
        ensures { is_sound self.new console.new ≡ true };
}
