//! Long netlists.
use crate::long::{Long, LongRow, NOTHING};

// Buffers in a row.
const ROW_OF_1000: Long = Long {
    before: b"INPUT(n0000)\n",
    each: b"n% = BUFF(n^)\n",
    count: 1000,
    ..NOTHING
};

const ROW_OF_40: Long = Long {
    before: b"INPUT(n0000)\n",
    each: b"n% = BUFF(n^)\n",
    count: 40,
    ..NOTHING
};

// Gates, each of which shares an input with the next one.
const FIELD: Long = Long {
    each: b"INPUT(a^)\nINPUT(b%)\nINPUT(c%)\ny% = XOR(a^, a%, b%, c%)\n",
    count: 4095,
    after: b"INPUT(a4095)\n",
    ..NOTHING
};

// Gates of 64 inputs. Each has 252 clauses before any is left out.
const WIDE: Long = Long {
    before: b"INPUT(a)\n",
    each: b"g% = XOR(a,a,a,a,a,a,a,a,a,a,a,a,a,a,a,a,a,a,a,a,a,a,a,a,a,a,a,a,a,a,a,a,a,a,a,a,a,a,a,a,a,a,a,a,a,a,a,a,a,a,a,a,a,a,a,a,a,a,a,a,a,a,a,a)\n",
    count: 0,
    ..NOTHING
};

pub static LONG_NETLISTS: [LongRow; 25] = [
    // Buffers in a row: the sum is five for each, and two more.
    LongRow {
        name: "f.bench",
        text: ROW_OF_1000,
        words: &["serve", "f.bench"],
        script: Long {
            before: b"open S\nsee S n0000=0\nsee S n1000=1\nmin S\n",
            ..NOTHING
        },
        out: b"ready 1000 1001\nS open\nS ok\nS ok\nS min 1 n0001\n",
        status: 0,
    },
    LongRow {
        name: "f.bench",
        text: ROW_OF_1000,
        words: &["plan", "f.bench"],
        script: NOTHING,
        out: b"clauses 2000\nsum 5002\n",
        status: 0,
    },
    LongRow {
        name: "f.bench",
        text: ROW_OF_1000,
        words: &["serve", "f.bench", "--least"],
        script: NOTHING,
        out: b"ready 1000 1001\n",
        status: 0,
    },
    LongRow {
        name: "f.bench",
        text: ROW_OF_40,
        words: &["plan", "f.bench"],
        script: NOTHING,
        out: b"clauses 80\nsum 202\n",
        status: 0,
    },
    LongRow {
        name: "f.bench",
        text: ROW_OF_40,
        words: &["compile", "f.bench", "--budget", "201"],
        script: NOTHING,
        out: b"error: sum above 201\n",
        status: 3,
    },
    LongRow {
        name: "f.bench",
        text: ROW_OF_40,
        words: &["serve", "f.bench", "--budget", "202"],
        script: NOTHING,
        out: b"ready 40 41\n",
        status: 0,
    },
    // Gates with one input in common. The clauses of this input are active from its level on, up to the level of each gate's output. With m
    // gates still to come, what the input gave leaves 2 lists of 2m clauses. The health of the next gate makes them 4, or 3 for the last
    // one. With s(m) = 2m / 64 + 1 words the sum is 1 + 2 + 4 s(n), and 6 s(m) for each m from n - 1 down to 2, and 5 + 1.
    LongRow {
        name: "f.bench",
        text: Long {
            before: b"INPUT(a)\n",
            each: b"n% = BUFF(a)\n",
            count: 100,
            ..NOTHING
        },
        words: &["plan", "f.bench"],
        script: NOTHING,
        out: b"clauses 200\nsum 1261\n",
        status: 0,
    },
    LongRow {
        name: "f.bench",
        text: Long {
            before: b"INPUT(a)\n",
            each: b"n% = BUFF(a)\n",
            count: 500,
            ..NOTHING
        },
        words: &["plan", "f.bench"],
        script: NOTHING,
        out: b"clauses 1000\nsum 25021\n",
        status: 0,
    },
    // An adder of 800 bits has a sum of 107 for the first bit and 135 for each further one.
    LongRow {
        name: "f.bench",
        text: Long {
            before: b"INPUT(b00007)\n",
            each: b"INPUT(b%1)\nINPUT(b%2)\nb%3 = XOR(b%1, b%2)\nb%4 = AND(b%1, b%2)\nb%5 = AND(b^7, b%3)\n\
                      b%6 = XOR(b^7, b%3)\nb%7 = OR(b%4, b%5)\n",
            count: 800,
            ..NOTHING
        },
        words: &["plan", "f.bench"],
        script: NOTHING,
        out: b"clauses 13600\nsum 107972\n",
        status: 0,
    },
    // A field of gates, each of which shares an input with the next one.
    LongRow {
        name: "f.bench",
        text: FIELD,
        words: &["plan", "f.bench"],
        script: NOTHING,
        out: b"clauses 65520\nsum 159704\n",
        status: 0,
    },
    LongRow {
        name: "f.bench",
        text: FIELD,
        words: &["serve", "f.bench", "--levels", "32"],
        script: NOTHING,
        out: b"error: bits 2162954494 above 2147483648\n",
        status: 1,
    },
    LongRow {
        name: "f.bench",
        text: FIELD,
        words: &["serve", "f.bench", "--least"],
        script: NOTHING,
        out: b"error: bits 2163474560 above 2147483648\n",
        status: 1,
    },
    // 64 ones are even, so y should be 0.
    LongRow {
        name: "f.bench",
        text: Long {
            each: b"INPUT(i%)\n",
            count: 64,
            after: b"y = XOR(i0001, i0002, i0003, i0004, i0005, i0006, i0007, i0008, i0009, i0010, i0011, i0012, i0013, i0014, i0015, i0016, i0017, i0018, i0019, i0020, i0021, i0022, i0023, i0024, i0025, i0026, i0027, i0028, i0029, i0030, i0031, i0032, i0033, i0034, i0035, i0036, i0037, i0038, i0039, i0040, i0041, i0042, i0043, i0044, i0045, i0046, i0047, i0048, i0049, i0050, i0051, i0052, i0053, i0054, i0055, i0056, i0057, i0058, i0059, i0060, i0061, i0062, i0063, i0064)\n",
            ..NOTHING
        },
        words: &["serve", "f.bench"],
        script: Long {
            before: b"open S\n",
            each: b"see S i%=1\n",
            count: 64,
            after: b"see S y=1\nmin S\n",
        },
        out: b"ready 1 65\nS open\nS ok\nS ok\nS ok\nS ok\nS ok\nS ok\nS ok\nS ok\nS ok\nS ok\nS ok\nS ok\nS ok\n\
                 S ok\nS ok\nS ok\nS ok\nS ok\nS ok\nS ok\nS ok\nS ok\nS ok\nS ok\nS ok\nS ok\nS ok\nS ok\nS ok\n\
                 S ok\nS ok\nS ok\nS ok\nS ok\nS ok\nS ok\nS ok\nS ok\nS ok\nS ok\nS ok\nS ok\nS ok\nS ok\nS ok\n\
                 S ok\nS ok\nS ok\nS ok\nS ok\nS ok\nS ok\nS ok\nS ok\nS ok\nS ok\nS ok\nS ok\nS ok\nS ok\nS ok\n\
                 S ok\nS ok\nS ok\nS ok\nS min 1 y\n",
        status: 0,
    },
    LongRow {
        name: "f.bench",
        text: Long {
            count: 1041,
            ..WIDE
        },
        words: &["plan", "f.bench"],
        script: NOTHING,
        out: b"error: clauses 262332 above 262144\n",
        status: 1,
    },
    LongRow {
        name: "f.bench",
        text: Long { count: 17, ..WIDE },
        words: &["serve", "f.bench", "--frames", "64"],
        script: NOTHING,
        out: b"error: clauses 274176 above 262144\n",
        status: 1,
    },
    // Each of the 65 parts has 64 copies.
    LongRow {
        name: "f.bench",
        text: Long {
            before: b"INPUT(a)\n",
            each: b"b% = BUFF(a)\n",
            count: 65,
            ..NOTHING
        },
        words: &["serve", "f.bench", "--frames", "64"],
        script: NOTHING,
        out: b"error: parts 4160 above 4096\n",
        status: 1,
    },
    // 257 wires at 64 times are too many. If parts and wires are too many, the parts are reported.
    LongRow {
        name: "f.bench",
        text: Long {
            before: b"b = BUFF(a0001)\n",
            each: b"INPUT(a%)\n",
            count: 256,
            ..NOTHING
        },
        words: &["serve", "f.bench", "--frames", "64"],
        script: NOTHING,
        out: b"error: wires 16448 above 16384\n",
        status: 1,
    },
    LongRow {
        name: "f.bench",
        text: Long {
            each: b"INPUT(a%)\nb% = BUFF(a%)\n",
            count: 129,
            ..NOTHING
        },
        words: &["serve", "f.bench", "--frames", "64"],
        script: NOTHING,
        out: b"error: parts 8256 above 4096\n",
        status: 1,
    },
    // Counts within their limits are taken: the refusal is of the sum.
    LongRow {
        name: "f.bench",
        text: Long {
            count: 1040,
            ..WIDE
        },
        words: &["serve", "f.bench", "--budget", "1"],
        script: NOTHING,
        out: b"error: sum above 1\n",
        status: 3,
    },
    LongRow {
        name: "f.bench",
        text: Long {
            each: b"g% = NOT(g%)\n",
            count: 4096,
            ..NOTHING
        },
        words: &["serve", "f.bench", "--budget", "1"],
        script: NOTHING,
        out: b"error: sum above 1\n",
        status: 3,
    },
    LongRow {
        name: "f.bench",
        text: Long {
            each: b"g% = NOT(g%)\n",
            count: 4097,
            ..NOTHING
        },
        words: &["serve", "f.bench"],
        script: NOTHING,
        out: b"error: line 0: fault 8 too many\n",
        status: 1,
    },
    LongRow {
        name: "f.bench",
        text: Long {
            each: b"INPUT(a%)\n",
            count: 16384,
            ..NOTHING
        },
        words: &["serve", "f.bench"],
        script: NOTHING,
        out: b"ready 0 16384\n",
        status: 0,
    },
    LongRow {
        name: "f.bench",
        text: Long {
            each: b"INPUT(a%)\n",
            count: 16385,
            ..NOTHING
        },
        words: &["serve", "f.bench"],
        script: NOTHING,
        out: b"error: line 0: fault 8 too many\n",
        status: 1,
    },
    // The greatest length of a file, and one byte more.
    LongRow {
        name: "f.bench",
        text: Long {
            each: b"\n",
            count: 16777216,
            ..NOTHING
        },
        words: &["serve", "f.bench"],
        script: NOTHING,
        out: b"ready 0 0\n",
        status: 0,
    },
    LongRow {
        name: "f.bench",
        text: Long {
            each: b"\n",
            count: 16777217,
            ..NOTHING
        },
        words: &["serve", "f.bench"],
        script: NOTHING,
        out: b"error: file above 16777216 bytes\n",
        status: 1,
    },
];
