//! Doubling, a map that isn't onto.
ghost use Rattle.std.specs.Prelude.{ℕ, ◌*◌, ◌/◌, ◌^◌, Some};
ghost use Rattle.std.proofs.Common.{ap, arith};
ghost use Rattle.std.proofs.lemmas.Bool.Decides.{nat_tests};
ghost use Rattle.col_values.specs.Codes.{is_below};

use col_values::StrictlyMonotonicFn;

/// Twice a number below 2 ^ 63.
#[derive(Clone, Copy, Debug)]
pub struct Doubling;

impl StrictlyMonotonicFn<u64, u64> for Doubling {
    ghost is_in = { λ _. is_below (2 ^ 63) };

    ghost there = { λ _ n. 2 * n };

    ghost back = { λ _ n. n / 2 };

    ghost laws = { λ _. record {
      compares = λ m n _ _. ap Some (Prim.grind (arith, nat_tests));
      undoes = λ n _. Prim.omega arith;
    } };

    fn in_domain(&self, value: u64) -> bool {
        value < 1 << 63
    }

    fn mapping(&self, value: u64) -> u64 {
        2 * value
    }

    fn inverse(&self, value: u64) -> u64 {
        value / 2
    }

    fn at_least(&self, out: u64) -> Option<u64> {
        let half = out.div_ceil(2);
        if half >= 1 << 63 {
            return None;
        }
        Some(half)
    }

    fn at_most(&self, out: u64) -> Option<u64> {
        Some(out / 2)
    }
}
