//! Every prefix of a text is answered, and so is the whole.
use crate::files::{ANY, C17, FALSE, VALVE};
use crate::rows::{Row, answer};
use crate::running::NOTHING_FAILS;
use std::alloc::Global;
use std::process::Abort;
use std::test::Fail;

// What is written, from a prefix of this many bytes on.
type Written = &'static [(usize, &'static [u8])];

// The line that is cut off is refused, or else the first output whose gate is missing.
static OF_C17: [(usize, &[u8]); 27] = [
    (0, b"ready 0 0\n"),
    (7, b"error: line 2: fault 1 line\n"),
    (14, b"ready 0 1\n"),
    (16, b"error: line 3: fault 1 line\n"),
    (23, b"ready 0 2\n"),
    (25, b"error: line 4: fault 1 line\n"),
    (32, b"ready 0 3\n"),
    (34, b"error: line 5: fault 1 line\n"),
    (41, b"ready 0 4\n"),
    (43, b"error: line 6: fault 1 line\n"),
    (50, b"ready 0 5\n"),
    (52, b"error: line 7: fault 1 line\n"),
    (61, b"error: line 7: fault 7 undriven\n"),
    (63, b"error: line 8: fault 1 line\n"),
    (72, b"error: line 7: fault 7 undriven\n"),
    (75, b"error: line 10: fault 1 line\n"),
    (89, b"error: line 7: fault 7 undriven\n"),
    (91, b"error: line 11: fault 1 line\n"),
    (105, b"error: line 7: fault 7 undriven\n"),
    (107, b"error: line 12: fault 1 line\n"),
    (122, b"error: line 7: fault 7 undriven\n"),
    (124, b"error: line 13: fault 1 line\n"),
    (139, b"error: line 7: fault 7 undriven\n"),
    (141, b"error: line 14: fault 1 line\n"),
    (157, b"error: line 8: fault 7 undriven\n"),
    (159, b"error: line 15: fault 1 line\n"),
    (175, b"ready 6 11\n"),
];

// A line that is cut off is refused, or a design without a top. The last line feed may be missing.
static OF_VALVE: [(usize, &[u8]); 27] = [
    (0, b"error: line 0: fault 7 no top\n"),
    (1, b"error: line 1: fault 1 line\n"),
    (6, b"error: line 1: fault 5 ports\n"),
    (8, b"error: line 0: fault 7 no top\n"),
    (12, b"error: line 2: fault 1 line\n"),
    (15, b"error: line 2: fault 6 row\n"),
    (16, b"error: line 0: fault 7 no top\n"),
    (18, b"error: line 3: fault 1 line\n"),
    (21, b"error: line 3: fault 6 row\n"),
    (22, b"error: line 0: fault 7 no top\n"),
    (24, b"error: line 4: fault 1 line\n"),
    (28, b"error: line 4: fault 6 row\n"),
    (29, b"error: line 0: fault 7 no top\n"),
    (31, b"error: line 5: fault 1 line\n"),
    (35, b"error: line 5: fault 6 row\n"),
    (36, b"error: line 0: fault 7 no top\n"),
    (38, b"error: line 6: fault 1 line\n"),
    (40, b"error: line 0: fault 7 no top\n"),
    (42, b"error: line 7: fault 1 line\n"),
    (48, b"error: line 0: fault 7 no top\n"),
    (54, b"error: line 8: fault 1 line\n"),
    (61, b"error: line 8: fault 5 ports\n"),
    (65, b"error: line 0: fault 7 no top\n"),
    (67, b"error: line 9: fault 1 line\n"),
    (69, b"error: line 0: fault 7 no top\n"),
    (71, b"error: line 10: fault 1 line\n"),
    (75, b"ready 1 2\n"),
];

static OF_ANY: [(usize, &[u8]); 8] = [
    (0, b"error: fault 1 header\n"),
    (9, b"error: fault 5 counts 3 0\n"),
    (11, b"error: line 2: fault 2 line\n"),
    (13, b"error: fault 5 counts 3 1\n"),
    (15, b"error: line 3: fault 2 line\n"),
    (18, b"error: fault 5 counts 3 2\n"),
    (20, b"error: line 4: fault 2 line\n"),
    (28, b"decomposable 3 2 1\n"),
];

static OF_FALSE: [(usize, &[u8]); 4] = [
    (0, b"error: fault 1 header\n"),
    (9, b"error: fault 5 counts 1 0\n"),
    (11, b"error: line 2: fault 2 line\n"),
    (15, b"decomposable 1 0 0\n"),
];

fn answer_fronts(
    rt: &impl Abort,
    alloc: Global,
    [command, name]: [&str; 2],
    text: &[u8],
    written: Written,
) -> Result<(), Fail> {
    assert!(rt; text.len() <= 4096);
    let mut out: &[u8] = b"";
    for len in 0..=text.len() {
        for (from, line) in written {
            if *from == len {
                out = line;
            }
        }
        let row = Row {
            name,
            text: &text[..len],
            words: &[command, name],
            script: b"",
            out,
            status: u8::from(out.starts_with(b"error")),
        };
        answer(rt, alloc, &row, &NOTHING_FAILS)?;
    }
    Ok(())
}

#[test]
fn answers_each_front(rt: HostRuntime) -> Result<(), Fail> {
    let alloc = rt.alloc();
    answer_fronts(&rt, alloc, ["serve", "f.bench"], C17, &OF_C17)?;
    answer_fronts(&rt, alloc, ["serve", "f.dev"], VALVE, &OF_VALVE)?;
    answer_fronts(&rt, alloc, ["check", "f.nnf"], ANY, &OF_ANY)?;
    answer_fronts(&rt, alloc, ["check", "f.nnf"], FALSE, &OF_FALSE)
}
