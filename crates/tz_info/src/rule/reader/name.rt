//! The names of a TZ string: letters, or any bytes between `<` and `>`.

ghost use Rattle.std.specs.Prelude.{◌≡◌, ◌==◌};
ghost use Rattle.{
  tz_base.specs.{Fronts.{after_run, run_of}, Grammar.{IsRead}},
  tz_info.specs.TzGrammar.{greater, is_letter, is_not_greater, name},
};

use tz_base::{Cursor, Error};

// A name as the text gives it, which need not be one that a type can have.
#[tactic(auto, unfolding(crate::specs::TzGrammar::name, crate::specs::TzGrammar::quoted))]
pub(super) fn read_name<'a>(cursor: &mut Cursor<'a>) -> Result<&'a [u8], Error>
    ensures { IsRead name cursor.old (λ name. name.now) result cursor.new }
{
    if !cursor.read_optional_tag(b"<") {
        return Ok(read_letters(cursor));
    }
    let name = read_until_greater(cursor);
    cursor.read_tag(b">")?;
    Ok(name)
}

fn read_until_greater<'a>(cursor: &mut Cursor<'a>) -> &'a [u8]
    ensures run { result.now ≡ run_of is_not_greater cursor.old }
    ensures rest { cursor.new ≡ after_run is_not_greater cursor.old }
{
    cursor.read_until(
        |b: &u8| -> bool
            ensures { result ≡ (b.now == greater) }
        { *b == b'>' },
    )
}

fn read_letters<'a>(cursor: &mut Cursor<'a>) -> &'a [u8]
    ensures run { result.now ≡ run_of is_letter cursor.old }
    ensures rest { cursor.new ≡ after_run is_letter cursor.old }
{
    cursor.read_while(u8::is_ascii_alphabetic)
}
