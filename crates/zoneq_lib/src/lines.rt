//! The ends of lines.

ghost use Rattle.std.specs.Prelude.{◌≡◌, ◌∷◌, ◌++◌, MatchOption};
ghost use Rattle.zoneq_lib.specs.Runs.{HasNoNewline, without_return};

/// Returns the bytes before the first newline and those after it, if there is a newline.
pub fn split_line(bytes: &[u8]) -> Option<(&[u8], &[u8])>
    ensures { MatchOption result (HasNoNewline bytes.now)
        (λ p. HasNoNewline p.0.now × (bytes.now ≡ p.0.now ++ 10 ∷ p.1.now)) }
{
    for (i, b) in bytes.iter().enumerate() {
        if *b == b'\n' {
            return Some((&bytes[..i], &bytes[i + 1..]));
        }
    }
    None
}

/// Returns the bytes before a newline without the one carriage return that they may end with.
pub fn without_return(piece: &[u8]) -> &[u8]
    ensures { result.now ≡ without_return piece.now }
{
    match piece.split_last() {
        Some((b'\r', line)) => line,
        _ => piece,
    }
}
