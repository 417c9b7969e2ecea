//! Points in time.
ghost use Rattle.std.specs.Prelude.{◌≡◌};

use std::marker::Model;

/// A point in time, in nanoseconds from the epoch. Contracts see the number.
#[derive(Clone, Copy, Debug, Default, PartialEq, Eq, PartialOrd, Ord, Hash)]
pub struct DateTime {
    timestamp_nanos: i64,
}

impl Model for DateTime {
    ghost use Rattle.std.specs.Prelude.{ℤ};

    ghost Value = { ℤ };

    ghost view = { λ s. s.timestamp_nanos };

    ghost inverse = { λ nanos. record { timestamp_nanos = nanos } };
}

impl DateTime {
    /// The point so many nanoseconds from the epoch.
    pub fn from_timestamp_nanos(nanoseconds: i64) -> DateTime
        ensures { result ≡ nanoseconds }
    {
        DateTime {
            timestamp_nanos: nanoseconds,
        }
    }

    /// How many nanoseconds from the epoch.
    pub fn into_timestamp_nanos(self) -> i64
        ensures { result ≡ self }
    {
        self.timestamp_nanos
    }
}
