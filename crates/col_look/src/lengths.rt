//! How long bars are drawn.
ghost use Rattle.std.specs.Prelude.{◌≡◌};
ghost use Rattle.col_look.specs.Bars.{bar_length};

/// How long the bar of a count is, where that of the greatest count has this width: rounded down,
/// and never more than the width.
pub fn bar_len(count: u64, most: u64, width: u32) -> u32
    ensures { result ≡ bar_length count most width }
{
    if most == 0 {
        return 0;
    }
    let length = u128::from(count) * u128::from(width) / u128::from(most);
    length.min(u128::from(width)) as u32
}
