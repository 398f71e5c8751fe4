use wah_words::Wah;

/// What has rows as a vector, so that a list of bins, of vectors or of references to either serves without a copy.
pub trait HasRows {
    ghost use Rattle.std.specs.Prelude.{◌≡◌, List, Bool};

    ghost row_bits: { Self → List Bool };

    /// The rows.
    fn rows(&self) -> &Wah
        ensures { result.now ≡ row_bits self.now };
}

impl HasRows for Wah {
    ghost row_bits = { λ v. v };

    #[inline(always)]
    fn rows(&self) -> &Wah {
        self
    }
}

impl<T: HasRows> HasRows for &T {
    ghost row_bits = { λ r. T.row_bits r.now };

    #[inline(always)]
    fn rows(&self) -> &Wah {
        (*self).rows()
    }
}
