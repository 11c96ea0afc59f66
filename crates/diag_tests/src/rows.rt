//! Rows: runs of the program, and what they write and end with.
ghost use Rattle.std.specs.Prelude.{◌<◌};

use crate::designs::DESIGNS;
use crate::files::CHAIN;
use crate::graphs::GRAPHS;
use crate::netlists::{NETLISTS, WITH_OPTIONS};
use crate::refused::{REFUSED_DESIGNS, REFUSED_GRAPHS, REFUSED_NETLISTS};
use crate::running::{Meeting, NOTHING_FAILS, run};
use crate::scripts::SCRIPTS;
use crate::words::WRONG;
use std::alloc::Global;
use std::process::Abort;
use std::test::Fail;

/// The one file of the shelf, the words and the script of a run, and what it writes and ends with. For `plan` a row has only the last
/// lines, so that a further line changes no row; the whole is in `examples/inspected`.
#[derive(Clone, Copy)]
pub struct Row<'a> {
    pub name: &'a str,
    pub text: &'a [u8],
    pub words: &'a [&'a str],
    pub script: &'a [u8],
    pub out: &'a [u8],
    pub status: u8,
}

/// Runs a row.
pub fn answer(rt: &impl Abort, alloc: Global, row: &Row<'_>, meeting: &Meeting) -> Result<(), Fail>
    requires { 0 < meeting.now.piece }
{
    let words = row.words;
    let ran = run(alloc, row.name, row.text, words, row.script, meeting)?;
    let out = ran.out.as_slice();
    if row.status == 0 && !words.is_empty() && words[0] == "plan" {
        assert!(rt; out.ends_with(row.out), "{words:?}");
    } else {
        assert_eq!(rt; out, row.out, "{words:?}");
    }
    assert_eq!(rt; ran.status, row.status, "{words:?}");
    Ok(())
}

// Runs each row with the script in one piece, in pieces of 7 bytes, and byte by byte.
fn answer_rows(rt: &impl Abort, alloc: Global, rows: &[Row<'_>]) -> Result<(), Fail> {
    for row in rows {
        for piece in [1, 7, 4096] {
            let meeting = Meeting {
                piece,
                ..NOTHING_FAILS
            };
            assert!(rt; 0 < meeting.piece);
            answer(rt, alloc, row, &meeting)?;
        }
    }
    Ok(())
}

#[test]
fn answers_rows(rt: HostRuntime) -> Result<(), Fail> {
    let alloc = rt.alloc();
    answer_rows(&rt, alloc, &NETLISTS)?;
    answer_rows(&rt, alloc, &WITH_OPTIONS)?;
    answer_rows(&rt, alloc, &DESIGNS)?;
    answer_rows(&rt, alloc, &GRAPHS)?;
    answer_rows(&rt, alloc, &SCRIPTS)
}

#[test]
fn refuses_words(rt: HostRuntime) -> Result<(), Fail> {
    let alloc = rt.alloc();
    for line in WRONG.lines() {
        let mut words = Vec::new(alloc);
        if !line.is_empty() {
            for word in line.split(' ') {
                words.push(word)?;
            }
        }
        let row = Row {
            name: "f.bench",
            text: CHAIN,
            words: &words,
            script: b"open S\n",
            out: b"error: usage\n",
            status: 2,
        };
        answer(&rt, alloc, &row, &NOTHING_FAILS)?;
    }
    Ok(())
}

// Runs a command on each file that is refused.
fn refuse(
    rt: &impl Abort,
    alloc: Global,
    [command, name]: [&str; 2],
    files: &[(&[u8], &[u8])],
) -> Result<(), Fail> {
    for (text, out) in files {
        let row = Row {
            name,
            text,
            words: &[command, name],
            script: b"open S\n",
            out,
            status: 1,
        };
        answer(rt, alloc, &row, &NOTHING_FAILS)?;
    }
    Ok(())
}

#[test]
fn refuses_files(rt: HostRuntime) -> Result<(), Fail> {
    let alloc = rt.alloc();
    refuse(&rt, alloc, ["serve", "f.bench"], &REFUSED_NETLISTS)?;
    refuse(&rt, alloc, ["serve", "f.dev"], &REFUSED_DESIGNS)?;
    refuse(&rt, alloc, ["check", "f.nnf"], &REFUSED_GRAPHS)
}
