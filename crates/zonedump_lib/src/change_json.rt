//! Changes of the clocks as JSON.
#![tactic(auto, using(crate::proofs::JsonPutting::wrote, crate::proofs::JsonPutting::puts_then))]

ghost use Rattle.std.specs.{Fmt.{signed_decimal}, Prelude.{◌≡◌, ◌-ℤ◌, ◌∷◌, [], codes, decimal, flat_map, unsigned_abs}};
ghost use Rattle.{
  json.specs.{Token.{key, number, string}, Tree.{json_tokens}},
  zonedump_lib.specs.{ChangeValues.{change_value, list_value, name_value, step_name, type_value}, Words.{clock_words}},
  zonedump_lib.specs.JsonSteps.{Puts},
};

use crate::clocks::Clock;
use json::Writer;
use std::alloc::{AllocError, Global};
use tz_base::{Change, LocalTimeType};

// Writes the member `changes`: a list of those changes.
pub(crate) fn put_changes(
    writer: &mut Writer,
    alloc: Global,
    changes: &[Change],
) -> Result<(), AllocError>
    ensures { Puts result writer.old writer.new
        (key (codes "changes") ∷ json_tokens (list_value change_value changes.now)) }
{
    writer.key("changes")?;
    writer.begin_array()?;
    put_change_list(writer, alloc, changes)?;
    writer.end_array()
}

fn put_change_list(writer: &mut Writer, alloc: Global, changes: &[Change]) -> Result<(), AllocError>
    ensures { Puts result writer.old writer.new
        (flat_map (λ c. json_tokens (change_value c)) changes.now) }
{
    for change in changes {
        put_change(writer, alloc, change)?;
    }
    Ok(())
}

fn put_change(writer: &mut Writer, alloc: Global, change: &Change) -> Result<(), AllocError>
    ensures { Puts result writer.old writer.new (json_tokens (change_value change.now)) }
{
    writer.begin_object()?;
    put_number(writer, "at", change.at)?;
    put_clock(writer, alloc, change)?;
    put_type(writer, "before", &change.before)?;
    put_type(writer, "after", &change.after)?;
    put_step(writer, change)?;
    writer.end_object()
}

// What UTC shows at the second.
fn put_clock(writer: &mut Writer, alloc: Global, change: &Change) -> Result<(), AllocError>
    ensures { Puts result writer.old writer.new
        (key (codes "utc") ∷ string (clock_words change.now.at) ∷ []) }
{
    let utc = Clock(change.at as i128);
    let text = format!(in alloc; "{utc}")?;
    put_string(writer, "utc", text.as_str())
}

fn put_step(writer: &mut Writer, change: &Change) -> Result<(), AllocError>
    ensures { Puts result writer.old writer.new (key (codes "step")
        ∷ string (step_name change.now.before.offset change.now.after.offset)
        ∷ key (codes "length")
        ∷ number (decimal (unsigned_abs (change.now.after.offset -ℤ change.now.before.offset)))
        ∷ []) }
{
    let before = change.before.offset();
    let after = change.after.offset();
    put_string(writer, "step", step_name(before, after))?;
    put_count(writer, "length", after.abs_diff(before) as u64)
}

fn step_name(before: i32, after: i32) -> &'static str
    ensures { result.now ≡ step_name before after }
{
    if before < after {
        "gap"
    } else if after < before {
        "fold"
    } else {
        "none"
    }
}

// Writes a member whose value is a type of local time: `offset`, `dst` and `name`.
pub(crate) fn put_type(
    writer: &mut Writer,
    name: &str,
    shown: &LocalTimeType,
) -> Result<(), AllocError>
    ensures { Puts result writer.old writer.new
        (key name.now ∷ json_tokens (type_value shown.now)) }
{
    writer.key(name)?;
    writer.begin_object()?;
    put_number(writer, "offset", shown.offset() as i64)?;
    writer.key("dst")?;
    writer.boolean(shown.is_dst())?;
    put_name(writer, shown)?;
    writer.end_object()
}

fn put_name(writer: &mut Writer, shown: &LocalTimeType) -> Result<(), AllocError>
    ensures { Puts result writer.old writer.new
        (key (codes "name") ∷ json_tokens (name_value shown.now.name)) }
{
    writer.key("name")?;
    match shown.name() {
        Some(name) => writer.string(name.as_str()),
        None => writer.null(),
    }
}

// Writes a member whose value is a text.
pub(crate) fn put_string(writer: &mut Writer, name: &str, text: &str) -> Result<(), AllocError>
    ensures { Puts result writer.old writer.new (key name.now ∷ string text.now ∷ []) }
{
    writer.key(name)?;
    writer.string(text)
}

// Writes a member whose value is a number, which may be negative.
pub(crate) fn put_number(writer: &mut Writer, name: &str, n: i64) -> Result<(), AllocError>
    ensures { Puts result writer.old writer.new
        (key name.now ∷ number (signed_decimal n) ∷ []) }
{
    writer.key(name)?;
    writer.i64(n)
}

// Writes a member whose value is a number from zero on.
pub(crate) fn put_count(writer: &mut Writer, name: &str, n: u64) -> Result<(), AllocError>
    ensures { Puts result writer.old writer.new (key name.now ∷ number (decimal n) ∷ []) }
{
    writer.key(name)?;
    writer.u64(n)
}
