//! Where a text is put.
ghost use Rattle.std.specs.Prelude.{◌≡◌, is_err};
ghost use Rattle.col_print.specs.Puts.{SeenOut, Puts};

/// Where a text is put, piece by piece.
pub trait Out {
    /// The sink behind it, what is still to be written there, and whether a write was refused.
    ghost seen: { Self → SeenOut };

    /// Puts bytes behind all that was put before. Behind a refusal nothing is taken.
    fn put(&mut self, bytes: &[u8])
        ensures { Puts (seen self.old) (seen self.new) bytes.now };

    /// Whether a write was refused, so that nothing is taken any more.
    fn is_refused(&self) -> bool
        ensures { result ≡ is_err (seen self.now).ended };
}
