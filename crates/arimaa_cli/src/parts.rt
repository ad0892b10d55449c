//! The parts of an input that has a text after a record, behind a line that says one word.
ghost use Rattle.std.specs.Prelude.{◌≡◌, ◌+◌, ◌≤◌, ◌↔◌, IfSome, IsTrue, length, option_map};
ghost use Rattle.arimaa_record.specs.Lines.{lines_of};
ghost use Rattle.arimaa_cli.specs.Parts.{IsFirstLine, IsMadeOf, Says};

use arimaa_notation::first_item;
use arimaa_record::first_line;

// The parts of an input: a record, the number of the line after it, and, if that line says the
// word, what comes after it.
#[derive(Clone, Copy)]
pub(crate) struct Parts<'a> {
    pub front: &'a [u8],
    pub line: u64,
    pub text: Option<&'a [u8]>,
}

// How many bytes the first line has with its end.
fn first_line_len(bytes: &[u8]) -> usize
    requires { 1 ≤ length bytes.now }
    ensures { IsFirstLine bytes.now result }
{
    for (place, byte) in bytes.iter().enumerate() {
        if *byte == b'\n' {
            return place + 1;
        }
    }
    bytes.len()
}

// Whether a line says a word.
fn says(line: &[u8], word: &[u8]) -> bool
    ensures { IsTrue result ↔ Says word.now line.now }
{
    match first_item(line) {
        Some((item, rest)) => item == word && first_item(rest).is_none(),
        None => false,
    }
}

// The parts of an input, at the first line that says a word.
pub(crate) fn parts_of<'a>(bytes: &'a [u8], word: &[u8]) -> Parts<'a>
    ensures made { let text = option_map (λ x. x.now) result.text in
        IsMadeOf word.now bytes.now result.front.now text }
    ensures counted { result.line ≡ length (lines_of result.front.now) + 1 }
    ensures few { IfSome result.text (λ x. result.line + length x.now ≤ length bytes.now) }
{
    let mut start: usize = 0;
    let mut lines: u64 = 0;
    while let Some((line, _)) = first_line(&bytes[start..]) {
        let end = start + first_line_len(&bytes[start..]);
        if says(line, word) {
            return Parts {
                front: &bytes[..start],
                line: lines + 1,
                text: Some(&bytes[end..]),
            };
        }
        lines += 1;
        start = end;
    }
    Parts {
        front: bytes,
        line: lines + 1,
        text: None,
    }
}
