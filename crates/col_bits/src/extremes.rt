//! The least and the greatest of items.
ghost use Rattle.std.specs.Prelude.{List};
ghost use Rattle.std.specs.Iterator.{Drains, IsFinite};
ghost use Rattle.col_bits.specs.Extremes.{IsMinMax};

/// The least and the greatest item, and none of nothing.
pub fn minmax<I, T>(mut vals: I) -> Option<(T, T)>
where
    I: Iterator<Item = T> + Drop,
    T: Copy + Ord,
    requires can { I.can_next vals }
    requires finite { IsFinite (I.remaining vals) }
    ensures { (items : List T) × Drains I.next_gives vals items × IsMinMax T.cmp items result }
{
    let first = vals.next()?;
    let mut least = first;
    let mut greatest = first;
    for val in vals {
        least = least.min(val);
        greatest = greatest.max(val);
    }
    Some((least, greatest))
}
