//! What the arrays of a file are read into.
ghost use Rattle.std.specs.Prelude.{◌≡◌, List, ℕ, length};
ghost use Rattle.sq_arrays.specs.Targets.{HasRange, put_in};

/// Holds the bytes of arrays, little-endian and in order of coordinates.
pub trait ArrayTarget {
    /// The bytes of each array, by its number.
    ghost arrays: { Self → List (List ℕ) };

    /// The second is the first but for bytes of its arrays.
    ghost keeps: { Self → Self → Type 0 };

    /// Makes the bytes of an array from that place on those of `bytes`, and changes nothing else.
    fn put(&mut self, array: usize, at: usize, bytes: &[u8])
        requires { HasRange (arrays self.old) array at (length bytes.now) }
        ensures put { arrays self.new ≡ put_in array at bytes.now (arrays self.old) }
        ensures keeps { keeps self.old self.new };

    ghost keeps_itself: { (t : Self) → keeps t t };

    ghost keeps_on: { (s t u : Self) → keeps s t → keeps t u → keeps s u };
}
