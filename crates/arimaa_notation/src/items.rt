//! Items of a text, which blanks separate.
ghost use Rattle.std.specs.Prelude.{◌≡◌, ◌+◌, ◌≤◌, [], ◌∷◌, length, IfNone, IfSome};
ghost use Rattle.std.specs.List.{prefix_len, suffix_len, position_or_len};
ghost use Rattle.arimaa_notation.specs.Items.{is_blank, items_of, IsFirstItem, without_outer_blanks, without_first_blanks, word_of, after_word};

/// Whether a byte is a blank: a space or a tab.
pub fn is_blank(byte: u8) -> bool
    ensures { result ≡ is_blank byte }
{
    byte == b' ' || byte == b'\t'
}

// How many blanks stand at the front.
fn blanks_before(bytes: &[u8]) -> usize
    ensures value { result ≡ prefix_len is_blank bytes.now }
    ensures fits { result ≤ length bytes.now }
{
    bytes.iter().take_while(|byte| is_blank(**byte)).count()
}

// How many blanks stand at the end.
fn blanks_after(bytes: &[u8]) -> usize
    ensures value { result ≡ suffix_len is_blank bytes.now }
    ensures fits { result ≤ length bytes.now }
{
    bytes
        .iter()
        .rev()
        .take_while(|byte| is_blank(**byte))
        .count()
}

// How many bytes stand before the first blank.
fn item_len(bytes: &[u8]) -> usize
    ensures value { result ≡ position_or_len is_blank bytes.now }
    ensures fits { result ≤ length bytes.now }
{
    bytes.iter().take_while(|byte| !is_blank(**byte)).count()
}

/// A text without the blanks at its front. A blank is a space or a tab.
pub fn trim_start(bytes: &[u8]) -> &[u8]
    ensures { result.now ≡ without_first_blanks bytes.now }
{
    &bytes[blanks_before(bytes)..]
}

/// A text without the blanks at its ends. A blank is a space or a tab.
pub fn trim(bytes: &[u8]) -> &[u8]
    ensures { result.now ≡ without_outer_blanks bytes.now }
{
    let rest = trim_start(bytes);
    &rest[..rest.len() - blanks_after(rest)]
}

/// The first item of a text and the bytes after it; none exactly where the text has no item.
///
/// An item is one or more bytes with no blank among them. A blank is a space or a tab.
pub fn first_item(bytes: &[u8]) -> Option<(&[u8], &[u8])>
    ensures none { IfNone result (items_of bytes.now ≡ []) }
    ensures first { IfSome result (λ cut. IsFirstItem bytes.now cut.0.now cut.1.now) }
    ensures items { IfSome result (λ cut. items_of bytes.now ≡ cut.0.now ∷ items_of cut.1.now) }
    ensures no_word { IfNone result (word_of bytes.now ≡ []) }
    ensures word { IfSome result (λ cut. cut.0.now ≡ word_of bytes.now) }
    ensures after { IfSome result (λ cut. cut.1.now ≡ after_word bytes.now) }
    ensures shorter { IfSome result (λ cut. 1 + length cut.1.now ≤ length bytes.now) }
{
    let (_, text) = bytes.split_at(blanks_before(bytes));
    if text.is_empty() {
        return None;
    }
    Some(text.split_at(item_len(text)))
}
