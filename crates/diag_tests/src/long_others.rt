//! Long designs, graphs and scripts.
use crate::files::CHAIN;
use crate::long::{Long, LongRow, NOTHING};

// Blocks, each of which has two of the one before.
const DOUBLED_60_TIMES: Long = Long {
    before: b"type U p\nok 0\nend\nblock B0000 p\npart u U p\nend\n",
    each: b"block B% p\npart l B^ p\npart r B^ p\nend\n",
    count: 60,
    after: b"top B0060\n",
};

const DOUBLED_70_TIMES: Long = Long {
    before: b"type U p\nok 0\nend\nblock B0000 p\npart u U p\nend\n",
    each: b"block B% p\npart l B^ p\npart r B^ p\nend\n",
    count: 70,
    after: b"top B0070\n",
};

const ONE_CHAIN: Long = Long {
    before: CHAIN,
    ..NOTHING
};

pub static LONG_OTHERS: [LongRow; 17] = [
    // Each block has two of the one before. A number above 64 bits is reported as the greatest one.
    LongRow {
        name: "f.dev",
        text: Long {
            before: b"type U p\nok 0\nend\nblock B0000 p\npart u U p\nend\n",
            each: b"block B% p\npart l B^ p\npart r B^ p\nend\n",
            count: 20,
            after: b"top B0020\n",
        },
        words: &["serve", "f.dev"],
        script: NOTHING,
        out: b"error: parts 1048576 above 4096\n",
        status: 1,
    },
    LongRow {
        name: "f.dev",
        text: DOUBLED_60_TIMES,
        words: &["serve", "f.dev"],
        script: NOTHING,
        out: b"error: parts 1152921504606846976 above 4096\n",
        status: 1,
    },
    LongRow {
        name: "f.dev",
        text: DOUBLED_60_TIMES,
        words: &["plan", "f.dev"],
        script: NOTHING,
        out: b"error: parts 1152921504606846976 above 4096\n",
        status: 1,
    },
    LongRow {
        name: "f.dev",
        text: DOUBLED_60_TIMES,
        words: &["compile", "f.dev"],
        script: NOTHING,
        out: b"error: parts 1152921504606846976 above 4096\n",
        status: 1,
    },
    LongRow {
        name: "f.dev",
        text: DOUBLED_70_TIMES,
        words: &["serve", "f.dev"],
        script: NOTHING,
        out: b"error: parts 18446744073709551615 above 4096\n",
        status: 1,
    },
    LongRow {
        name: "f.dev",
        text: DOUBLED_70_TIMES,
        words: &["plan", "f.dev"],
        script: NOTHING,
        out: b"error: parts 18446744073709551615 above 4096\n",
        status: 1,
    },
    LongRow {
        name: "f.dev",
        text: DOUBLED_70_TIMES,
        words: &["compile", "f.dev"],
        script: NOTHING,
        out: b"error: parts 18446744073709551615 above 4096\n",
        status: 1,
    },
    LongRow {
        name: "f.dev",
        text: Long {
            before: b"block B0000 p\nwire w\nend\n",
            each: b"block B% p\npart l B^ p\npart r B^ p\nend\n",
            count: 14,
            after: b"top B0014\n",
        },
        words: &["serve", "f.dev"],
        script: NOTHING,
        out: b"error: wires 16385 above 16384\n",
        status: 1,
    },
    LongRow {
        name: "f.dev",
        text: Long {
            before: b"block B0000 p\nend\n",
            each: b"block B% p\npart l B^ p\npart r B^ p\nend\n",
            count: 12,
            after: b"top B0012\n",
        },
        words: &["serve", "f.dev"],
        script: NOTHING,
        out: b"error: blocks 8190 above 4096\n",
        status: 1,
    },
    LongRow {
        name: "f.dev",
        text: Long {
            before: b"block B0000 p\nend\n",
            each: b"block B% p\npart l B^ p\npart r B^ p\nend\n",
            count: 11,
            after: b"top B0011\n",
        },
        words: &["serve", "f.dev"],
        script: NOTHING,
        out: b"ready 0 1\n",
        status: 0,
    },
    // The first node that shares a variable is reported, even if a later one shares a smaller variable.
    LongRow {
        name: "f.nnf",
        text: Long {
            before: b"nnf 71 70 660\n",
            each: b"L %0\n",
            count: 66,
            after: b"O 0 66 0 1 2 3 4 5 6 7 8 9 10 11 12 13 14 15 16 17 18 19 20 21 22 23 24 25 26 27 28 29 30 31 32 33 34 35 36 37 38 39 40 41 42 43 44 45 46 47 48 49 50 51 52 53 54 55 56 57 58 59 60 61 62 63 64 65\n\
                       A 0\nA 0\nA 2 65 66\nA 2 0 66\n",
        },
        words: &["check", "f.nnf"],
        script: NOTHING,
        out: b"error: fault 7 shared node 69 variable 660\n",
        status: 1,
    },
    // About as many lines as a file has room for, and as many children.
    LongRow {
        name: "f.nnf",
        text: Long {
            before: b"nnf 4000000 0 1\n",
            each: b"L 1\n",
            count: 4000000,
            ..NOTHING
        },
        words: &["check", "f.nnf"],
        script: NOTHING,
        out: b"decomposable 4000000 0 1\n",
        status: 0,
    },
    LongRow {
        name: "f.nnf",
        text: Long {
            before: b"nnf 2 8000000 1073741824\nL 1073741824\nO 0 8000000",
            each: b" 0",
            count: 8000000,
            ..NOTHING
        },
        words: &["check", "f.nnf"],
        script: NOTHING,
        out: b"decomposable 2 8000000 1073741824\n",
        status: 0,
    },
    // A line of the greatest length is read, and one with one byte more is dropped.
    LongRow {
        name: "f.bench",
        text: ONE_CHAIN,
        words: &["serve", "f.bench"],
        script: Long {
            each: b"x",
            count: 1048576,
            after: b"\nopen S\n",
            ..NOTHING
        },
        out: b"ready 2 3\nerror 1 unknown command\nS open\n",
        status: 0,
    },
    LongRow {
        name: "f.bench",
        text: ONE_CHAIN,
        words: &["serve", "f.bench"],
        script: Long {
            each: b"x",
            count: 1048577,
            after: b"\nopen S\n",
            ..NOTHING
        },
        out: b"ready 2 3\nerror 5 line too long\nS open\n",
        status: 0,
    },
    LongRow {
        name: "f.bench",
        text: ONE_CHAIN,
        words: &["serve", "f.bench"],
        script: Long {
            before: b"#",
            each: b"x",
            count: 1048576,
            after: b"\nmin S",
        },
        out: b"ready 2 3\nerror 5 line too long\nS error 6 no session\n",
        status: 0,
    },
    // A script may be longer than a file.
    LongRow {
        name: "f.bench",
        text: ONE_CHAIN,
        words: &["serve", "f.bench"],
        script: Long {
            before: b"open S\n",
            each: b"\n",
            count: 16777210,
            after: b"min S\n",
        },
        out: b"ready 2 3\nS open\nS min 0\n",
        status: 0,
    },
];
