//! What looks at a word piece by piece, in constant memory.
ghost use Rattle.std.specs.Prelude.{◌≡◌, ℕ};
ghost use Rattle.std.specs.List.{fold};

/// What is kept of the bytes of a run, which come in pieces of any size.
pub(crate) trait Observer {
    /// What is kept after one more byte.
    ghost step: { Self → ℕ → Self };

    fn observe(&mut self, piece: &[u8])
        ensures { self.new ≡ fold step self.old piece.now };
}

/// Keeps nothing.
#[derive(Drop)]
pub(crate) struct Nothing;

impl Observer for Nothing {
    ghost step = { λ kept _. kept };

    fn observe(&mut self, _piece: &[u8]) {}
}
