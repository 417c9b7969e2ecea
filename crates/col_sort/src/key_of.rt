//! Keys of values.
ghost use Rattle.std.specs.Prelude.{◌≡◌, pos, slice_index_or};

/// Gives each value a key.
pub(crate) trait KeyOf<T, K> {
    /// The key of a value.
    ghost key: { Self → T → K };

    /// The same.
    fn key_of(&self, value: T) -> K
        ensures { result ≡ key self.now value };
}

/// Each value is its own key.
pub(crate) struct OwnKeys;

impl<T: Copy> KeyOf<T, T> for OwnKeys {
    ghost key = { λ _ v. v };

    #[inline(always)]
    fn key_of(&self, value: T) -> T {
        value
    }
}

/// Numbers of two types as keys of one.
pub(crate) struct WholeNumbers;

impl KeyOf<i64, i128> for WholeNumbers {
    ghost key = { λ _ z. z };

    #[inline(always)]
    fn key_of(&self, value: i64) -> i128 {
        value as i128
    }
}

impl KeyOf<u64, i128> for WholeNumbers {
    ghost key = { λ _ n. pos n };

    #[inline(always)]
    fn key_of(&self, value: u64) -> i128 {
        value as i128
    }
}

/// The places of a column's terms among all terms.
#[derive(Drop)]
pub(crate) struct TermPlaces<'a> {
    pub(crate) places: &'a [u64],
}

impl<'a> KeyOf<u64, u64> for TermPlaces<'a> {
    ghost key = { λ p ord. slice_index_or p.places.now ord 0 };

    #[inline(always)]
    fn key_of(&self, ord: u64) -> u64 {
        match self.places.get(ord as usize) {
            Some(place) => *place,
            None => 0,
        }
    }
}
