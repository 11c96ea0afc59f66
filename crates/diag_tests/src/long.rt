//! Long texts, in which a piece is repeated.
use crate::long_netlists::LONG_NETLISTS;
use crate::long_others::LONG_OTHERS;
use crate::rows::{Row, answer};
use crate::running::NOTHING_FAILS;
use std::alloc::{AllocError, Global};
use std::process::Abort;
use std::test::Fail;

/// What is before the copies of a piece, the piece, the number of copies, and what is after them. In a piece `%` is the number of the copy,
/// from 1 and in four digits, and `^` is the number before it.
#[derive(Clone, Copy)]
pub struct Long {
    pub before: &'static [u8],
    pub each: &'static [u8],
    pub count: u32,
    pub after: &'static [u8],
}

fn whole(alloc: Global, long: &Long) -> Result<Vec<u8>, AllocError> {
    let mut text = Vec::from_slice(alloc, long.before)?;
    for number in 1..=long.count {
        for byte in long.each {
            match byte {
                b'%' => put_number(alloc, &mut text, number)?,
                b'^' => put_number(alloc, &mut text, number.saturating_sub(1))?,
                _ => text.push(*byte)?,
            }
        }
    }
    text.extend_from_slice(long.after)?;
    Ok(text)
}

fn put_number(alloc: Global, text: &mut Vec<u8>, number: u32) -> Result<(), AllocError> {
    text.extend_from_slice(format!(in alloc; "{number:04}")?.as_bytes())
}

/// The empty text.
pub const NOTHING: Long = Long {
    before: b"",
    each: b"",
    count: 0,
    after: b"",
};

/// A row whose file and script may be long.
pub struct LongRow {
    pub name: &'static str,
    pub text: Long,
    pub words: &'static [&'static str],
    pub script: Long,
    pub out: &'static [u8],
    pub status: u8,
}

fn answer_long(rt: &impl Abort, alloc: Global, long: &LongRow) -> Result<(), Fail> {
    let text = whole(alloc, &long.text)?;
    let script = whole(alloc, &long.script)?;
    let row = Row {
        name: long.name,
        text: &text,
        words: long.words,
        script: &script,
        out: long.out,
        status: long.status,
    };
    answer(rt, alloc, &row, &NOTHING_FAILS)
}

#[test]
fn answers_long_texts(rt: HostRuntime) -> Result<(), Fail> {
    for long in LONG_NETLISTS.iter().chain(&LONG_OTHERS) {
        answer_long(&rt, rt.alloc(), long)?;
    }
    Ok(())
}
