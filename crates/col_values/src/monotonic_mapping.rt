//! Maps that keep the order of their domain.
ghost use Rattle.std.specs.Prelude.{◌≡◌, Bool};
ghost use Rattle.col_values.specs.Monotonic.{Passes, IsMonotonic, IsImage, IsAtLeast, IsAtMostOf};

/// A map that keeps the order of its domain.
pub trait StrictlyMonotonicFn<External: PartialOrd + Copy, Internal: PartialOrd + Copy> {
    /// Holds of the values that are mapped.
    ghost is_in: { Self → External → Bool };

    /// What a value is mapped to.
    ghost there: { Self → External → Internal };

    /// What is mapped to a value.
    ghost back: { Self → Internal → External };

    /// Whether a value is mapped.
    fn in_domain(&self, value: External) -> bool
        ensures { result ≡ is_in self.now value };

    /// What a value is mapped to.
    fn mapping(&self, value: External) -> Internal
        requires { Passes (is_in self.now) value }
        ensures { result ≡ there self.now value };

    /// What is mapped to a value.
    fn inverse(&self, value: Internal) -> External
        requires { IsImage (is_in self.now) (there self.now) value }
        ensures { result ≡ back self.now value };

    /// The least value that is mapped to at least this one; none where there is none.
    fn at_least(&self, out: Internal) -> Option<External>
        ensures { IsAtLeast External.partial_cmp Internal.partial_cmp (is_in self.now)
            (there self.now) out result };

    /// The greatest value that is mapped to at most this one; none where there is none.
    fn at_most(&self, out: Internal) -> Option<External>
        ensures { IsAtMostOf External.partial_cmp Internal.partial_cmp (is_in self.now)
            (there self.now) out result };

    /// It keeps the order, and the way back undoes it.
    ghost laws: { (m : Self) → IsMonotonic External.partial_cmp Internal.partial_cmp (is_in m)
        (there m) (back m) };
}
