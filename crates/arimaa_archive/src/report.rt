//! The text of the report.
ghost use Rattle.std.specs.Prelude.{◌≡◌, ◌+◌, ◌++◌, ◌<◌, ◌≤◌, ◌^◌, IfOk, OnOk, count_by, length};
ghost use Rattle.std.specs.Fmt.{decimal};
ghost use Rattle.arimaa_archive.specs.RecordJudgements.{is_bad, is_lawful};
ghost use Rattle.arimaa_archive.specs.Report.{text_of_counts, text_of_record, text_of_records, text_of_report, text_of_stray};

use crate::record_judgement::Told;
use itoa::Buffer;
use std::alloc::{AllocError, Global};
use std::thread;
use std::thread::Threads;

// Adds a word and a number.
fn push_count(text: &mut Vec<u8>, word: &[u8], number: u64) -> Result<(), AllocError>
    ensures { OnOk result (text.new.items ≡ text.old.items ++ (word.now ++ decimal number)) }
{
    text.extend_from_slice(word)?;
    text.extend_from_slice(Buffer::new().format(number).as_bytes())
}

// Adds the record of this number.
fn push_record(
    alloc: Global,
    text: &mut Vec<u8>,
    number: u64,
    told: &Told,
) -> Result<(), AllocError>
    ensures { OnOk result (text.new.items ≡ text.old.items ++ text_of_record number told.now) }
{
    push_count(text, b"game ", number)?;
    text.push(b'\n')?;
    text.extend_from_slice(&told.text(alloc)?)
}

// How many records are lawful.
fn lawful_count(told: &[Told]) -> usize
    ensures { result ≡ count_by is_lawful told.now }
{
    told.iter().filter(|one| one.is_lawful()).count()
}

// How many records are bad.
fn bad_count(told: &[Told]) -> usize
    ensures { result ≡ count_by is_bad told.now }
{
    told.iter().filter(|one| one.is_bad()).count()
}

// Adds how many records there are, and how many are lawful and bad.
fn push_counts(text: &mut Vec<u8>, told: &[Told]) -> Result<(), AllocError>
    ensures { OnOk result (text.new.items ≡ text.old.items ++ text_of_counts told.now) }
{
    push_count(text, b"games ", told.len() as u64)?;
    push_count(text, b" lawful ", lawful_count(told) as u64)?;
    push_count(text, b" bad ", bad_count(told) as u64)?;
    text.push(b'\n')?;
    Ok(())
}

// The texts of records, one after another, the first of which has this number.
fn records_text(alloc: Global, first: u64, told: &[Told]) -> Result<Vec<u8>, AllocError>
    requires { first + length told.now < 2 ^ 64 }
    ensures { IfOk result (λ text. text.items ≡ text_of_records first told.now) }
{
    let mut text = Vec::new(alloc);
    for (place, one) in told.iter().enumerate() {
        push_record(alloc, &mut text, first + place as u64, one)?;
    }
    Ok(text)
}

// The texts of all records, counted from 1: those of each block of so many in a thread of its own.
fn all_records_text<R: Threads + Sync>(
    rt: &R,
    alloc: Global,
    told: &[Told],
    size: usize,
) -> Result<Vec<u8>, AllocError>
    requires { 0 < size }
    ensures { IfOk result (λ text. text.items ≡ text_of_records 1 told.now) }
{
    let block_text = |start: usize, block: &[Told]| -> Result<Vec<u8>, AllocError>
        requires { start + 1 + length block.now < 2 ^ 64 }
        ensures { IfOk result (λ text. text.items ≡ text_of_records (start + 1) block.entry.now) }
    { records_text(alloc, start as u64 + 1, block) };
    let texts = thread::map_chunks(rt, alloc, told, size, &block_text)?;
    let mut text = Vec::new(alloc);
    'joined: for place in 0..texts.len() {
        match &texts[place] {
            Ok(block) => text.extend_from_slice(block)?,
            Err(_) => return Err(AllocError),
        }
    }
    Ok(text)
}

// The report: the records in order, counted from 1, and then how many there are. So many workers
// make its text.
pub(crate) fn report<R: Threads + Sync>(
    rt: &R,
    alloc: Global,
    told: &[Told],
    workers: u32,
) -> Result<Vec<u8>, AllocError>
    requires { 1 ≤ workers }
    ensures { IfOk result (λ text. text.items ≡ text_of_report told.now) }
{
    let size = told.len() / workers as usize + 1;
    let mut text = all_records_text(rt, alloc, told, size)?;
    push_counts(&mut text, told)?;
    Ok(text)
}

// What is written where a line with content, of this number, belongs to no record.
pub(crate) fn stray_text(alloc: Global, number: u64) -> Result<Vec<u8>, AllocError>
    ensures { IfOk result (λ text. text.items ≡ text_of_stray number) }
{
    let mut text = Vec::new(alloc);
    push_count(&mut text, b"no game ", number)?;
    text.push(b'\n')?;
    Ok(text)
}
