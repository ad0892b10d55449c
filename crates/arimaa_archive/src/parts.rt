//! The records of an archive, by their places.
ghost use Rattle.std.specs.Prelude.{◌≡◌, ◌<◌, ◌≤◌, ◌+◌, ◌^◌, All, IfOk, IfSome, length, map, take, vec_len};
ghost use Rattle.std.specs.List.{position_or_len};
ghost use Rattle.std.specs.Str.Lines.{strip_carriage_return};
ghost use Rattle.arimaa_record.specs.Lines.{is_feed, lines_of};
ghost use Rattle.arimaa_archive.specs.Archive.{IsLineStart, IsWithin, first_content, has_content, is_game_line, lines_before_game, lines_of_part, place_from, records_from, records_of};

use arimaa_notation::{first_item, trim};
use arimaa_record::first_line;
use memchr::{memchr, memmem, memrchr};
use std::alloc::{AllocError, Global};

/// Where a record stands in the bytes of an archive.
#[derive(Clone, Copy, Debug, PartialEq, Eq)]
pub struct Part {
    /// The place of its first byte.
    pub start: usize,
    /// The place after its last byte.
    pub end: usize,
}

// Where a line `game` stands in bytes.
#[derive(Clone, Copy, Drop)]
pub(crate) struct Cut {
    // How many bytes stand before the first such line; all of them, where there is none.
    pub(crate) before: usize,
    // The place after that line, if there is one.
    pub(crate) after: Option<usize>,
}

// How many bytes stand before the first line feed.
fn line_len(bytes: &[u8]) -> usize
    ensures value { result ≡ position_or_len is_feed bytes.now }
    ensures fits { result ≤ length bytes.now }
{
    match memchr(b'\n', bytes) {
        Some(place) => place,
        None => bytes.len(),
    }
}

// The bytes without one carriage return at their end.
fn without_return(bytes: &[u8]) -> &[u8]
    ensures { result.now ≡ strip_carriage_return bytes.now }
{
    let size = bytes.len();
    if size > 0 && bytes[size - 1] == b'\r' {
        &bytes[..size - 1]
    } else {
        bytes
    }
}

// Whether a line begins a record.
fn is_game_line(line: &[u8]) -> bool
    ensures { result ≡ is_game_line line.now }
{
    trim(line) == b"game".as_slice()
}

// Whether a line has content.
fn has_content(line: &[u8]) -> bool
    ensures { result ≡ has_content line.now }
{
    match first_item(line) {
        None => false,
        Some((item, _)) => match item {
            [] => false,
            [first, ..] => *first != b'#',
        },
    }
}

// The number of the first line with content, counted from 1.
pub(crate) fn first_content(bytes: &[u8]) -> Option<u64>
    ensures { result ≡ first_content 1 (lines_of bytes.now) }
{
    let mut number: u64 = 1;
    let mut rest = bytes;
    'lines: while let Some((line, after)) = first_line(rest) {
        if has_content(line) {
            return Some(number);
        }
        number += 1;
        rest = after;
    }
    None
}

// How many bytes stand before the first line that has `game` somewhere in it; all, where none has.
// None of the lines in them begins a record.
fn before_game_word(bytes: &[u8]) -> usize
    ensures { IsLineStart bytes.now result }
{
    match memmem::find(bytes, b"game") {
        None => bytes.len(),
        Some(place) => {
            let (front, _) = bytes.split_at(place);
            match memrchr(b'\n', front) {
                None => 0,
                Some(feed) => feed + 1,
            }
        }
    }
}

// Where the first line stands that begins a record.
pub(crate) fn cut_at_game(bytes: &[u8]) -> Cut
    ensures within { result.before ≤ length bytes.now }
    ensures before { lines_of (take result.before bytes.now)
        ≡ lines_before_game (lines_of bytes.now) }
    ensures place { IfSome result.after (λ place. (0 < place) × (place ≤ length bytes.now)) }
    ensures records { records_of (lines_of bytes.now) ≡ records_from bytes.now result.after }
{
    let mut at = before_game_word(bytes);
    'lines: while at < bytes.len() {
        let (_, rest) = bytes.split_at(at);
        let size = line_len(rest);
        let (line, _) = rest.split_at(size);
        let next = at + (size + 1).min(rest.len());
        if is_game_line(without_return(line)) {
            return Cut {
                before: at,
                after: Some(next),
            };
        }
        let (_, later) = bytes.split_at(next);
        at = next + before_game_word(later);
    }
    Cut {
        before: bytes.len(),
        after: None,
    }
}

// A place in what follows a start, as a place in all.
fn place_from(start: usize, after: Option<usize>) -> Option<usize>
    requires { IfSome after (λ place. start + place < 2 ^ 64) }
    ensures { result ≡ place_from start after }
{
    match after {
        None => None,
        Some(place) => Some(start + place),
    }
}

// The parts that the records are, the first of which begins at this place, if there is one.
pub(crate) fn parts_from(
    alloc: Global,
    bytes: &[u8],
    first: Option<usize>,
) -> Result<Vec<Part>, AllocError>
    requires { IfSome first (λ place. (0 < place) × (place ≤ length bytes.now)) }
    ensures records { IfOk result (λ parts. map (lines_of_part bytes.now) parts.items
        ≡ records_from bytes.now first) }
    ensures within { IfOk result (λ parts. All (IsWithin (length bytes.now)) parts.items) }
    ensures few { IfOk result (λ parts. vec_len parts ≤ length bytes.now) }
{
    let mut parts = Vec::new(alloc);
    let mut next = first;
    'records: while let Some(start) = next {
        let (_, rest) = bytes.split_at(start);
        let cut = cut_at_game(rest);
        parts.push(Part {
            start,
            end: start + cut.before,
        })?;
        next = place_from(start, cut.after);
    }
    Ok(parts)
}
