//! The lines of an input.
ghost use Rattle.std.specs.Prelude.{◌≡◌, ◌≢◌, ◌+◌, ◌≤◌, [], ◌∷◌, length, drop, IfNone, IfSome};
ghost use Rattle.std.specs.List.{position_or_len};
ghost use Rattle.std.specs.Str.Lines.{strip_carriage_return};
ghost use Rattle.arimaa_record.specs.Lines.{is_feed, lines_of};

// How many bytes stand before the first line feed.
pub(crate) fn line_len(bytes: &[u8]) -> usize
    ensures value { result ≡ position_or_len is_feed bytes.now }
    ensures fits { result ≤ length bytes.now }
{
    for (place, byte) in bytes.iter().enumerate() {
        if *byte == b'\n' {
            return place;
        }
    }
    bytes.len()
}

// The bytes without one carriage return at their end.
pub(crate) fn without_return(bytes: &[u8]) -> &[u8]
    ensures { result.now ≡ strip_carriage_return bytes.now }
{
    let size = bytes.len();
    if size > 0 && bytes[size - 1] == b'\r' {
        &bytes[..size - 1]
    } else {
        bytes
    }
}

// The bytes after the first, if there is one.
fn after_first(bytes: &[u8]) -> &[u8]
    ensures { result.now ≡ drop 1 bytes.now }
{
    if bytes.is_empty() { bytes } else { &bytes[1..] }
}

/// The first line of an input without its end, and the bytes after it; none exactly where there is
/// no byte.
///
/// A line ends with a line feed, and the last may lack it. A carriage return directly before the
/// line feed, or at the end of the input, belongs to the line's end.
pub fn first_line(bytes: &[u8]) -> Option<(&[u8], &[u8])>
    ensures none { IfNone result (bytes.now ≡ []) }
    ensures some { IfSome result (λ _. bytes.now ≢ []) }
    ensures lines { IfSome result (λ cut. lines_of bytes.now ≡ cut.0.now ∷ lines_of cut.1.now) }
    ensures shorter { IfSome result (λ cut. 1 + length cut.1.now ≤ length bytes.now) }
{
    if bytes.is_empty() {
        return None;
    }
    let (line, rest) = bytes.split_at(line_len(bytes));
    Some((without_return(line), after_first(rest)))
}
