//! The version of this library.

ghost use Rattle.std.specs.Prelude.{◌≡◌};

/// Returns the version of this library: a million times its first number, a thousand times the
/// second, and the third.
#[unsafe(no_mangle)]
pub extern "C" fn zoned_version() -> u32
    ensures { result ≡ 4_000 }
{
    4_000
}
