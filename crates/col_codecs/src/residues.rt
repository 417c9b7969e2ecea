//! The least residue of numbers that rise by equal steps, found in as many turns as it has digits.
ghost use Rattle.std.specs.Prelude.{◌≡◌, ◌<◌, ◌≤◌, ◌/◌, ◌%◌, ◌^◌, ℕ};
ghost use Rattle.col_codecs.specs.Residues.{residue, IsLeast};

// The greatest modulus, by which a division is a shift.
const GREATEST_MODULUS: u128 = 1 << 64;

/// The least of `(factor * x + offset) % modulus` for x below the count. Residues rise until they
/// pass the modulus; the first ones of all later rises are residues of the factor, that rise too.
pub fn least_residue(count: u32, modulus: u128, factor: u128, offset: u128) -> u128
    requires some { 0 < count }
    requires limit { modulus ≤ 2 ^ 64 }
    requires factor { factor < modulus }
    requires offset { offset < modulus }
    ensures { IsLeast (residue modulus factor offset) count result }
{
    let (factor, offset) = in_short_steps(count, modulus, factor, offset);
    let turns = quotient(factor * u128::from(count - 1) + offset, modulus);
    if turns == 0 {
        return offset;
    }
    let back = (factor - modulus % factor) % factor;
    let later = least_residue(turns as u32, factor, back, (offset + back) % factor);
    offset.min(later)
}

// Factor and offset of the same residues, from the last one on where steps down are shorter.
fn in_short_steps(count: u32, modulus: u128, factor: u128, offset: u128) -> (u128, u128)
    requires some { 0 < count }
    requires limit { modulus ≤ 2 ^ 64 }
    requires factor { factor < modulus }
    requires offset { offset < modulus }
    ensures factor { result.0 < modulus }
    ensures offset { result.1 < modulus }
    ensures least { (v : ℕ) → IsLeast (residue modulus result.0 result.1) count v
        → IsLeast (residue modulus factor offset) count v }
{
    if factor <= modulus / 2 {
        return (factor, offset);
    }
    let last = factor * u128::from(count - 1) + offset;
    (modulus - factor, remainder(last, modulus))
}

// How often a modulus goes into a number.
fn quotient(number: u128, modulus: u128) -> u128
    requires { 0 < modulus }
    ensures { result ≡ number / modulus }
{
    if modulus == GREATEST_MODULUS {
        return number >> 64;
    }
    number / modulus
}

// What is left of a number.
fn remainder(number: u128, modulus: u128) -> u128
    requires { 0 < modulus }
    ensures { result ≡ number % modulus }
{
    if modulus == GREATEST_MODULUS {
        return number % GREATEST_MODULUS;
    }
    number % modulus
}
