//! Bytes in hex digits.

ghost use Rattle.std.specs.Prelude.{◌≡◌};
ghost use Rattle.zoneq_lib.specs.Steps.HexTests.{bytes_test};

/// Returns whether these are hex digits of either case, two for each of some bytes.
pub fn spell_bytes(digits: &[u8]) -> bool
    ensures { result ≡ (bytes_test digits.now).passes }
{
    if digits.len() % 2 != 0 {
        return false;
    }
    for digit in digits {
        if !digit.is_ascii_hexdigit() {
            return false;
        }
    }
    true
}
