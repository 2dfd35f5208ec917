//! White space of ASCII at both ends of bytes.

ghost use Rattle.std.specs.{Char.{is_ascii_whitespace}, List.{prefix_len}, Prelude.{◌≡◌, ◌≤◌, ◌+◌, length}};
ghost use Rattle.tz_base.specs.{Fronts.{after_run}, Trims.{trimmed}};

/// Returns the bytes between it.
pub fn trimmed(bytes: &[u8]) -> &[u8]
    ensures value { result.now ≡ trimmed bytes.now }
    ensures room { prefix_len is_ascii_whitespace bytes.now + length result.now
        ≤ length bytes.now }
{
    bytes.trim_ascii()
}

/// Returns the bytes after the white space in front.
pub fn after_space(bytes: &[u8]) -> &[u8]
    ensures { result.now ≡ after_run is_ascii_whitespace bytes.now }
{
    bytes.trim_ascii_start()
}

/// Returns how many bytes of it are in front.
#[tactic(auto, using(crate::proofs::TrimLaws::front_counted))]
pub fn space_in_front(bytes: &[u8]) -> usize
    ensures value { result ≡ prefix_len is_ascii_whitespace bytes.now }
    ensures bound { result ≤ length bytes.now }
{
    bytes.len() - bytes.trim_ascii_start().len()
}
