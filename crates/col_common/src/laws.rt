//! Laws, each the contract of a call that does nothing.
ghost use Rattle.std.specs.Prelude.{pos};
ghost use Rattle.std.specs.Ordering.{int_cmp, nat_cmp};
ghost use Rattle.col_common.specs.Laws.{ComparesBy, EqualAsCompared, EqualHashAlike, DefaultIs};
ghost use Rattle.col_common.specs.Laws.{UnlistedNeverFails};

use crate::{DateTime, Ipv6Addr};

/// Points in time compare as their nanoseconds, equality and hashes agree, and the default is the
/// epoch.
pub fn times_compare_as_their_nanoseconds()
    ensures order { ComparesBy int_cmp
        ⟦<DateTime as PartialOrd>⟧.partial_cmp ⟦<DateTime as Ord>⟧.cmp }
    ensures equality { EqualAsCompared ⟦<DateTime as PartialEq>⟧.eq ⟦<DateTime as Ord>⟧.cmp }
    ensures hash { EqualHashAlike
        ⟦<DateTime as PartialEq>⟧.eq ⟦<DateTime as std::hash::Hash>⟧.hash_input }
    ensures default { DefaultIs (pos 0) ⟦<DateTime as Default>⟧.is_default }
{}

/// Addresses compare as their numbers, equality and hashes agree, and the default is 0.
pub fn addresses_compare_as_their_numbers()
    ensures order { ComparesBy nat_cmp
        ⟦<Ipv6Addr as PartialOrd>⟧.partial_cmp ⟦<Ipv6Addr as Ord>⟧.cmp }
    ensures equality { EqualAsCompared ⟦<Ipv6Addr as PartialEq>⟧.eq ⟦<Ipv6Addr as Ord>⟧.cmp }
    ensures hash { EqualHashAlike
        ⟦<Ipv6Addr as PartialEq>⟧.eq ⟦<Ipv6Addr as std::hash::Hash>⟧.hash_input }
    ensures default { DefaultIs 0 ⟦<Ipv6Addr as Default>⟧.is_default }
{}

/// Where no call of an object in memory is listed, none fails.
pub fn unlisted_calls_never_fail<T>()
    ensures { UnlistedNeverFails T }
{}
