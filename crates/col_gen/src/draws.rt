//! Draws from a linear congruential generator.
ghost use Rattle.std.specs.Prelude.{◌≡◌};
ghost use Rattle.col_program.specs.GenScript.{drawn, draw_of};

use std::marker::Model;

const MULTIPLIER: u64 = 6_364_136_223_846_793_005;

const INCREMENT: u64 = 1_442_695_040_888_963_407;

// How far the state is shifted, whose high bits are what is drawn.
const LOW_BITS: u32 = 33;

/// A generator, which contracts see as its state.
#[derive(Drop)]
pub(crate) struct Draws {
    state: u64,
}

impl Model for Draws {
    ghost use Rattle.std.specs.Prelude.{ℕ};

    ghost Value = { ℕ };

    ghost view = { λ d. d.state };
}

impl Draws {
    pub(crate) fn new(seed: u64) -> Self
        ensures { result ≡ seed }
    {
        Draws { state: seed }
    }

    // The next number.
    pub(crate) fn draw(&mut self) -> u64
        ensures state { self.new ≡ drawn self.old }
        ensures value { result ≡ draw_of (drawn self.old) }
    {
        self.state = self.state.wrapping_mul(MULTIPLIER).wrapping_add(INCREMENT);
        self.state >> LOW_BITS
    }
}
