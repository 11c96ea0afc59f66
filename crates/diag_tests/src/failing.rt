//! Runs in which a call of the shelf, the source or the sink fails, each call in turn.
use crate::files::CHAIN;
use crate::rows::{Row, answer};
use crate::running::{Meeting, NOTHING_FAILS, run};
use crate::scripts::{REPORTS, TURNS, TURNS_OUT};
use std::alloc::Global;
use std::process::Abort;
use std::test::Fail;

pub const WORDS: [&str; 2] = ["serve", "f.bench"];

// Calls that fail, and what is written.
static STOPPED: [(Meeting, &[u8]); 4] = [
    // the calls of the shelf: the pick, the read that returns the file, and the one that finds its end
    (
        Meeting {
            failing_pick_or_load: 1,
            ..NOTHING_FAILS
        },
        b"error: read\n",
    ),
    (
        Meeting {
            failing_pick_or_load: 2,
            ..NOTHING_FAILS
        },
        b"error: read\n",
    ),
    (
        Meeting {
            failing_pick_or_load: 3,
            ..NOTHING_FAILS
        },
        b"error: read\n",
    ),
    // The second piece ends within the third line, which is not answered.
    (
        Meeting {
            piece: 7,
            failing_read: 3,
            ..NOTHING_FAILS
        },
        b"ready 2 3\nS open\nS min 0\nerror: read\n",
    ),
];

#[test]
fn stops_where_a_read_fails(rt: HostRuntime) -> Result<(), Fail> {
    for stopped in &STOPPED {
        let (meeting, out) = *stopped;
        let row = Row {
            name: "f.bench",
            text: CHAIN,
            words: &WORDS,
            script: REPORTS,
            out,
            status: 4,
        };
        assert!(&rt; 0 < meeting.piece);
        answer(&rt, rt.alloc(), &row, &meeting)?;
    }
    Ok(())
}

// Each write fails in turn; a number past the last leaves the run whole. If the first one fails, the sink keeps at most `keep` bytes.
fn writes_fail(
    rt: &impl Abort,
    alloc: Global,
    script: &[u8],
    whole: &[u8],
    keep: usize,
) -> Result<(), Fail> {
    let mut is_whole = false;
    for failing_write in 1..=100 {
        let meeting = Meeting {
            failing_write,
            keep,
            ..NOTHING_FAILS
        };
        assert!(rt; 0 < meeting.piece);
        let ran = run(alloc, "f.bench", CHAIN, &WORDS, script, &meeting)?;
        let out = ran.out.as_slice();
        assert!(rt; whole.starts_with(out), "call {failing_write}");
        assert!(rt; failing_write != 1 || out.len() <= keep);
        assert!(rt; !is_whole || ran.status == 0, "call {failing_write}");
        is_whole = ran.status == 0;
        if is_whole {
            assert_eq!(rt; out.len(), whole.len(), "call {failing_write}");
        } else {
            assert_eq!(rt; ran.status, 5, "call {failing_write}");
        }
    }
    assert!(rt; is_whole);
    Ok(())
}

// The bytes of a graph's text are not known here, so those of a run in which nothing fails are used.
#[test]
fn each_write_fails_in_turn(rt: HostRuntime) -> Result<(), Fail> {
    for script in [TURNS, REPORTS, b"open S\ndnnf S\n".as_slice()] {
        let ran = run(rt.alloc(), "f.bench", CHAIN, &WORDS, script, &NOTHING_FAILS)?;
        for keep in [0, 1, 3] {
            writes_fail(&rt, rt.alloc(), script, ran.out.as_slice(), keep)?;
        }
    }
    Ok(())
}

fn lines_in(bytes: &[u8]) -> usize {
    bytes.iter().filter(|byte| **byte == b'\n').count()
}

// The lines in what earlier reads returned are answered. The read that finds the end of the script may fail too, and no read is after it.
#[test]
fn each_read_fails_in_turn(rt: HostRuntime) -> Result<(), Fail> {
    for piece in [1, 7, 4096] {
        let mut taken = 0usize;
        let mut is_over = false;
        for failing_read in 1..=160 {
            let meeting = Meeting {
                piece,
                failing_read,
                ..NOTHING_FAILS
            };
            assert!(rt; 0 < meeting.piece && taken <= TURNS.len());
            let ran = run(rt.alloc(), "f.bench", CHAIN, &WORDS, TURNS, &meeting)?;
            let out = ran.out.as_slice();
            let told = out.strip_suffix(b"error: read\n");
            let status = if told.is_some() { 4 } else { 0 };
            let told = told.unwrap_or(out);
            assert_eq!(rt; ran.status, status, "read {failing_read} of {piece}");
            assert_eq!(rt; status == 0, is_over, "read {failing_read} of {piece}");
            assert!(rt;
                TURNS_OUT.starts_with(told),
                "read {failing_read} of {piece}"
            );
            let answered = lines_in(&TURNS[..taken]);
            assert_eq!(rt;
                lines_in(told),
                answered.saturating_add(1),
                "read {failing_read} of {piece}"
            );
            is_over = taken == TURNS.len();
            taken = taken.saturating_add(piece).min(TURNS.len());
        }
        assert!(rt; is_over);
    }
    Ok(())
}
