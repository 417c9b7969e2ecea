//! How many lines were taken.
use std::marker::Model;

/// How many lines were taken, and how many of them were skipped.
#[derive(Clone, Copy, Debug, Drop)]
pub struct LineCounts {
    lines: u64,
    skipped: u64,
}

impl Model for LineCounts {
    ghost use Rattle.std.specs.Prelude.{ℕ, ◌≤◌};

    ghost Value = { ℕ × ℕ };

    ghost view = { λ c. (c.lines, c.skipped) };

    ghost inverse = { λ p. record { lines = p.0; skipped = p.1 } };

    ghost invariant = { λ c. c.skipped ≤ c.lines };
}

impl LineCounts {
    ghost use Rattle.std.specs.Prelude.{◌≡◌, ◌+◌, ◌<◌, ◌^◌};

    /// Before any line.
    pub fn none() -> LineCounts
        ensures { result ≡ (0, 0) }
    {
        LineCounts {
            lines: 0,
            skipped: 0,
        }
    }

    /// How many lines were taken.
    pub fn lines(self) -> u64
        ensures { result ≡ self.0 }
    {
        self.lines
    }

    /// How many of them were skipped.
    pub fn skipped(self) -> u64
        ensures { result ≡ self.1 }
    {
        self.skipped
    }

    /// One line more.
    pub fn with_line(self) -> LineCounts
        requires { self.0 + 1 < 2 ^ 64 }
        ensures { result ≡ (self.0 + 1, self.1) }
    {
        LineCounts {
            lines: self.lines + 1,
            skipped: self.skipped,
        }
    }

    /// One line more, which was skipped.
    pub fn with_skipped(self) -> LineCounts
        requires { self.0 + 1 < 2 ^ 64 }
        ensures { result ≡ (self.0 + 1, self.1 + 1) }
    {
        LineCounts {
            lines: self.lines + 1,
            skipped: self.skipped + 1,
        }
    }
}
