//! Appends lines of JSON.
ghost use Rattle.std.specs.Prelude.{◌≡◌, ◌∷◌, [], false, OnOk, OnErr};
ghost use Rattle.serde_json.specs.View.{view};
ghost use Rattle.serde_json.specs.Written.{has_float};
ghost use Rattle.col_program.specs.Report.{Prints};

use serde_json::Value;
use std::alloc::{AllocError, Global};

/// Appends the value's text and a line feed. After a refusal the list is as it was.
#[tactic(auto, unfolding(col_program::specs::Report::Prints))]
pub fn push_line(alloc: Global, out: &mut Vec<u8>, value: &Value) -> Result<(), AllocError>
    requires { has_float (view value.now) ≡ false }
    ensures ok { OnOk result (Prints out.old.items out.new.items (view value.now ∷ [])) }
    ensures kept { OnErr result (out.new.items ≡ out.old.items) }
{
    let mut line = value.to_vec(alloc)?;
    line.push(b'\n')?;
    out.extend_from_slice(&line)
}
