//! A lookup whose steps are counted in a ledger of its own.
ghost use Rattle.std.specs.Prelude.{◌≡◌, ◌≤◌, ◌+◌, ◌-◌, ◌^◌, ◌<◌};
ghost use Rattle.col_common.specs.Replacing.{Replaces};
ghost use Rattle.col_values.specs.Codes.{number_cmp};
ghost use Rattle.col_values.specs.Values.{hits_between};

use col_codecs::BitpackedReader;
use col_common::Steps;
use col_values::Found;
use std::marker::Brand;
use std::sync::ledger::{Blank, Ledger};

/// The positions in a packed list of the values from the first to the last.
pub fn look_up(list: &BitpackedReader, values: (u64, u64), hits: &mut Vec<u32>) -> Found
    ensures { Replaces result hits.new.items
        (hits_between number_cmp list.now values.0 values.1 0 (2 ^ 32 - 1)) }
{
    look_up_from_no_step::<Brand>(list, values, hits, Blank::new(1))
}

fn look_up_from_no_step<L: Ledger>(
    list: &BitpackedReader,
    values: (u64, u64),
    hits: &mut Vec<u32>,
    blank: Blank,
) -> Found
    requires name { blank.name ≡ L.name }
    requires parts { blank.parts ≡ L.parts }
    requires some { 0 < blank.parts }
    ensures { Replaces result hits.new.items
        (hits_between number_cmp list.now values.0 values.1 0 (2 ^ 32 - 1)) }
{
    look_up_in_two_steps(list, values, hits, &mut Steps::<L>::new(blank))
}

// That it takes two steps at most is proved.
fn look_up_in_two_steps<L: Ledger>(
    list: &BitpackedReader,
    values: (u64, u64),
    hits: &mut Vec<u32>,
    steps: &mut Steps<L>,
) -> Found
    ensures ok { Replaces result hits.new.items
        (hits_between number_cmp list.now values.0 values.1 0 (2 ^ 32 - 1)) }
    ensures steps { steps.new ≤ steps.old + 2 }
{
    list.get_row_ids_counted(values.0..=values.1, 0..u32::MAX, hits, steps)
}
