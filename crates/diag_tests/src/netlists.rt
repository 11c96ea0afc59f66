//! Rows over netlists. The last ones use a forest.
use crate::files::{BY_KIND, C17, CHAIN, INPUT, NOT, SAME, SCRAMBLED};
use crate::rows::Row;

pub static NETLISTS: [Row<'static>; 23] = [
    // The inputs are 0, so 22 and 23 should be 0.
    Row {
        name: "f.bench",
        text: C17,
        words: &["serve", "f.bench"],
        script: b"open S\nsee S 1=0\nsee S 2=0\nsee S 3=0\nsee S 6=0\nsee S 7=0\nsee S 22=0\nsee S 23=0\nmin S\n\
                    next S\nnext S\n",
        out: b"ready 6 11\nS open\nS ok\nS ok\nS ok\nS ok\nS ok\nS ok\nS ok\nS min 0\nS diag\nS end\n",
        status: 0,
    },
    // Part 10 or 22 explains the 1, and the first of them is named. A list that is full has no end. If both are held to be ok, it takes
    // two.
    Row {
        name: "f.bench",
        text: C17,
        words: &["serve", "f.bench"],
        script: b"open S\nsee S 1=0\nsee S 2=0\nsee S 3=0\nsee S 6=0\nsee S 7=0\nsee S 22=1\nsee S 23=0\nmin S\n\
                    list S 2\nsee S 23=0\nlist S 5\nprobe S 10\nprobe S 16\nprobe S 22\nprobes S\nblame S\n\
                    hold S 10=ok\nhold S 22=ok\nmin S\nlist S 5\n",
        out: b"ready 6 11\nS open\nS ok\nS ok\nS ok\nS ok\nS ok\nS ok\nS ok\nS min 1 10\nS diag 10\nS diag 22\n\
                 S ok\nS diag 10\nS diag 22\nS end\nS probe 10 1 1\nS probe 16 2 1\nS probe 22 - 1\nS probe 10 1 1\n\
                 S probe 11 2 1\nS probe 16 2 1\nS probe 19 3 1\nS end\nS blame 10 sometimes\nS blame 11 never\n\
                 S blame 16 never\nS blame 19 never\nS blame 22 sometimes\nS blame 23 never\nS end\nS ok\nS ok\n\
                 S min 2 16 23\nS diag 16 23\nS end\n",
        status: 0,
    },
    // Of the parts above both outputs only 16 explains two ones.
    Row {
        name: "f.bench",
        text: C17,
        words: &["serve", "f.bench"],
        script: b"open S\nsee S 1=0\nsee S 2=0\nsee S 3=0\nsee S 6=0\nsee S 7=0\nsee S 22=1\nsee S 23=1\nmin S\n\
                    list S 5\nblame S\n",
        out: b"ready 6 11\nS open\nS ok\nS ok\nS ok\nS ok\nS ok\nS ok\nS ok\nS min 1 16\nS diag 16\nS end\n\
                 S blame 10 never\nS blame 11 never\nS blame 16 always\nS blame 19 never\nS blame 22 never\n\
                 S blame 23 never\nS end\n",
        status: 0,
    },
    Row {
        name: "f.bench",
        text: CHAIN,
        words: &["serve", "f.bench"],
        script: b"open S\nsee S a=0\nsee S c=1\nmin S\nopen T\nmin T\n",
        out: b"ready 2 3\nS open\nS ok\nS ok\nS min 1 b\nT open\nT min 0\n",
        status: 0,
    },
    // The last line has no line feed.
    Row {
        name: "f.bench",
        text: CHAIN,
        words: &["serve", "f.bench"],
        script: b"open S\nmin S",
        out: b"ready 2 3\nS open\nS min 0\n",
        status: 0,
    },
    // A flip-flop put out 1 after its input was 0.
    Row {
        name: "f.bench",
        text: b"INPUT(d)\nq = DFF(d)\n",
        words: &["serve", "f.bench", "--frames", "2"],
        script: b"open S\nsee S d@0001=0\nsee S q@0001=1\nsee S q@0002=1\nmin S\n",
        out: b"ready 1 4\nS open\nS ok\nS ok\nS ok\nS min 1 q\n",
        status: 0,
    },
    // A loop that should change its value each time did not.
    Row {
        name: "f.bench",
        text: b"q = DFF(n)\nn = NOT(q)\n",
        words: &[
            "serve",
            "f.bench",
            "--sessions",
            "2",
            "--frames",
            "3",
            "--budget",
            "1000",
        ],
        script: b"open S\nsee S q@0001=0\nsee S q@0003=1\nlist S 5\n",
        out: b"ready 2 6\nS open\nS ok\nS ok\nS diag n\nS diag q\nS end\n",
        status: 0,
    },
    // At one time alone a flip-flop is in no clause, but its wires still have the time in their names.
    Row {
        name: "f.bench",
        text: b"INPUT(d)\nq = DFF(d)\n",
        words: &["serve", "f.bench", "--frames", "1"],
        script: b"open S\nsee S d@0001=0\nsee S q@0001=1\nmin S\nsee S q=1\n",
        out: b"ready 1 2\nS open\nS ok\nS ok\nS min 0\nS error 9 no wire\n",
        status: 0,
    },
    // Over three times the sum of a buffer is above 3.
    Row {
        name: "f.bench",
        text: b"INPUT(a)\nb = BUFF(a)\n",
        words: &["serve", "f.bench", "--budget", "3", "--frames", "3"],
        script: b"open S\n",
        out: b"error: sum above 3\n",
        status: 3,
    },
    // A faulty part is faulty at all times, and costs 1.
    Row {
        name: "f.bench",
        text: b"INPUT(a)\nb = BUFF(a)\n",
        words: &["serve", "f.bench", "--frames", "2"],
        script: b"open S\nsee S a@0001=0\nsee S a@0002=0\nsee S b@0001=1\nsee S b@0002=1\nmin S\n",
        out: b"ready 1 4\nS open\nS ok\nS ok\nS ok\nS ok\nS min 1 b\n",
        status: 0,
    },
    Row {
        name: "f.bench",
        text: b"INPUT(a)\nq = DFF(a, a)\n",
        words: &["serve", "f.bench", "--frames", "2"],
        script: b"open S\n",
        out: b"error: line 2: fault 4 inputs\n",
        status: 1,
    },
    Row {
        name: "f.bench",
        text: INPUT,
        words: &["serve", "f.bench"],
        script: b"open S\nmin S\nnext S\nnext S\n",
        out: b"ready 0 1\nS open\nS min 0\nS diag\nS end\n",
        status: 0,
    },
    Row {
        name: "f.bench",
        text: INPUT,
        words: &["plan", "f.bench"],
        script: b"",
        out: b"clauses 0\nsum 1\n",
        status: 0,
    },
    // Three ones are odd, so y should be 1.
    Row {
        name: "f.bench",
        text: b"INPUT(a)\nINPUT(b)\nINPUT(c)\ny = xor(a, b, c)\n",
        words: &["serve", "f.bench"],
        script: b"open S\nsee S a=1\nsee S b=1\nsee S c=1\nsee S y=0\nmin S\n",
        out: b"ready 1 4\nS open\nS ok\nS ok\nS ok\nS ok\nS min 1 y\n",
        status: 0,
    },
    Row {
        name: "f.bench",
        text: SAME,
        words: &["plan", "f.bench"],
        script: b"",
        out: b"clauses 3\nsum 7\n",
        status: 0,
    },
    Row {
        name: "f.bench",
        text: SAME,
        words: &["serve", "f.bench"],
        script: b"open S\nsee S a=0\nsee S y=0\nmin S\n",
        out: b"ready 1 2\nS open\nS ok\nS ok\nS min 1 y\n",
        status: 0,
    },
    // No clause has the wires, so each may have any value.
    Row {
        name: "f.bench",
        text: b"INPUT(a)\nINPUT(b)\nINPUT(c)\nINPUT(d)\nINPUT(e)\nINPUT(f)\nINPUT(g)\nINPUT(h)\nINPUT(i)\nINPUT(j)\n\
                  INPUT(k)\nINPUT(l)\nINPUT(m)\nINPUT(n)\nINPUT(o)\nINPUT(p)\nINPUT(q)\nINPUT(r)\nINPUT(s)\nINPUT(t)\n\
                  INPUT(u)\n",
        words: &["serve", "f.bench"],
        script: b"open S\nsee S u=1\nmin S\n",
        out: b"ready 0 21\nS open\nS ok\nS min 0\n",
        status: 0,
    },
    Row {
        name: "f.bench",
        text: b"",
        words: &["serve", "absent.bench"],
        script: b"open S\n",
        out: b"error: read\n",
        status: 4,
    },
    // Its levels have one, two, three and one living lists, of one word each.
    Row {
        name: "f.bench",
        text: NOT,
        words: &["plan", "f.bench"],
        script: b"open S\n",
        out: b"clauses 2\nsum 7\n",
        status: 0,
    },
    Row {
        name: "f.bench",
        text: NOT,
        words: &["compile", "f.bench", "--budget", "6"],
        script: b"open S\n",
        out: b"error: sum above 6\n",
        status: 3,
    },
    Row {
        name: "f.bench",
        text: NOT,
        words: &["serve", "f.bench", "--budget", "6"],
        script: b"open S\n",
        out: b"error: sum above 6\n",
        status: 3,
    },
    Row {
        name: "f.bench",
        text: NOT,
        words: &["serve", "f.bench", "--sessions", "1024", "--budget", "7"],
        script: b"open S\nsee S a=1\nsee S y=1\nmin S\n",
        out: b"ready 1 2\nS open\nS ok\nS ok\nS min 1 y\n",
        status: 0,
    },
    Row {
        name: "f.bench",
        text: BY_KIND,
        words: &["serve", "f.bench", "--budget", "8530"],
        script: b"open S\n",
        out: b"error: sum above 8530\n",
        status: 3,
    },
];

/// Rows with options, and rows over large netlists.
pub static WITH_OPTIONS: [Row<'static>; 27] = [
    // States by rising cost: one of the buffers is faulty, or both are. The listing goes on after any state.
    Row {
        name: "f.bench",
        text: CHAIN,
        words: &["serve", "f.bench", "--levels", "2"],
        script: b"open S\nsee S a=0\nsee S c=1\nlevels S 9\nafter S c\nlevel S\nafter S\nlevel S\n",
        out: b"ready 2 3\nS open\nS ok\nS ok\nS level 1 b\nS level 1 c\nS level 2 b c\nS end\nS ok\nS level 2 b c\n\
                 S ok\nS level 1 b\n",
        status: 0,
    },
    Row {
        name: "f.bench",
        text: CHAIN,
        words: &["serve", "f.bench", "--levels", "1"],
        script: b"open S\nsee S a=0\nsee S c=1\nlevels S 9\n",
        out: b"ready 2 3\nS open\nS ok\nS ok\nS level 1 b\nS level 1 c\nS end\n",
        status: 0,
    },
    // Both are refused without their options.
    Row {
        name: "f.bench",
        text: CHAIN,
        words: &["serve", "f.bench"],
        script: b"open S\nlevel S\nlevels S 2\nleastnnf S\nlevel T\nleastnnf T\n",
        out: b"ready 2 3\nS open\nS error 11 no levels\nS error 11 no levels\nS error 12 no least\n\
                 T error 6 no session\nT error 6 no session\n",
        status: 0,
    },
    // Its graph has at most 3 * 8531 + 2 * 25 + 2 nodes, and each would have 10 bits for the parts and 3126 words for its
    // costs.
    Row {
        name: "f.bench",
        text: BY_KIND,
        words: &["serve", "f.bench", "--levels", "100000"],
        script: b"open S\n",
        out: b"error: bits 2565577090 above 2147483648\n",
        status: 1,
    },
    // The sum is seen as 1, but all that is added is 0: its own gate is faulty, or the one that it reads.
    Row {
        name: "f.bench",
        text: CHAIN,
        words: &["load", "1"],
        script: b"min S\n",
        out: b"parts 5\nwires 8\nclauses 17\nminimum 1\nfirst 0000s\nlisted 2\nlast 0000x\n",
        status: 0,
    },
    // Every sixteenth of 64 sums is 1, from the first on: that takes four faults. Twenty of the diagnoses are listed.
    Row {
        name: "f.bench",
        text: CHAIN,
        words: &["load", "64"],
        script: b"min S\n",
        out: b"parts 320\nwires 449\nclauses 1088\nminimum 4\nfirst 0000s 0015g 0031g 0047g\nlisted 20\n\
                 last 0000s 0015g 0032s 0048x\n",
        status: 0,
    },
    // Parts and wires are sorted by their names.
    Row {
        name: "f.bench",
        text: b"c = BUFF(b)\nb = BUFF(a)\nINPUT(a)\n",
        words: &["serve", "f.bench"],
        script: b"open S\nprobes S\nblame S\n",
        out: b"ready 2 3\nS open\nS probe a 0 0\nS probe b 0 0\nS probe c 0 0\nS end\nS blame b never\n\
                 S blame c never\nS end\n",
        status: 0,
    },
    Row {
        name: "f.bench",
        text: b"INPUT(a)\nINPUT(b)\ny = xor(a, b)\n",
        words: &["serve", "f.bench"],
        script: b"open S\nsee S a=1\nsee S b=1\nprobe S y\n",
        out: b"ready 1 3\nS open\nS ok\nS ok\nS probe y 0 1\n",
        status: 0,
    },
    // All 64 inputs are one wire, so the number of ones is even.
    Row {
        name: "f.bench",
        text: b"INPUT(a)\n\
                  y = XOR(a,a,a,a,a,a,a,a,a,a,a,a,a,a,a,a,a,a,a,a,a,a,a,a,a,a,a,a,a,a,a,a,a,a,a,a,a,a,a,a,a,a,a,a,a,a,a,a,a,a,a,a,a,a,a,a,a,a,a,a,a,a,a,a)\n",
        words: &["serve", "f.bench"],
        script: b"open S\nsee S a=1\nprobe S y\n",
        out: b"ready 1 2\nS open\nS ok\nS probe y 0 1\n",
        status: 0,
    },
    // A flip-flop puts out its input of one time before, and an inverter has no delay.
    Row {
        name: "f.bench",
        text: b"INPUT(d)\nq = dff(d)\ny = NOT(q)\n",
        words: &["serve", "f.bench", "--frames", "2"],
        script: b"open S\nsee S d@0001=1\nsee S y@0002=1\nlist S 5\nprobes S\nblame S\n",
        out: b"ready 2 6\nS open\nS ok\nS ok\nS diag q\nS diag y\nS end\nS probe d@0002 1 1\nS probe q@0001 1 1\n\
                 S probe q@0002 1 1\nS probe y@0001 1 1\nS end\nS blame q sometimes\nS blame y sometimes\nS end\n",
        status: 0,
    },
    // The first output of a flip-flop is not determined.
    Row {
        name: "f.bench",
        text: b"q = DFF(n)\nn = NOT(q)\n",
        words: &["serve", "f.bench", "--frames", "2"],
        script: b"open S\nprobes S\nsee S q@0001=1\nprobes S\nsee S q@0002=1\nlist S 5\nsee S n@0001=0\nlist S 5\n",
        out: b"ready 2 4\nS open\nS probe n@0001 0 0\nS probe n@0002 0 0\nS probe q@0001 0 0\nS probe q@0002 0 0\n\
                 S end\nS ok\nS probe n@0001 0 1\nS probe n@0002 1 0\nS probe q@0002 0 1\nS end\nS ok\nS diag n\n\
                 S diag q\nS end\nS ok\nS diag q\nS end\n",
        status: 0,
    },
    Row {
        name: "f.bench",
        text: b"INPUT(a)\nb = BUFF(a)\n",
        words: &["plan", "f.bench"],
        script: b"",
        out: b"clauses 2\nsum 7\n",
        status: 0,
    },
    Row {
        name: "f.bench",
        text: CHAIN,
        words: &["plan", "f.bench"],
        script: b"",
        out: b"clauses 4\nsum 12\n",
        status: 0,
    },
    // An adder whose names rise from bit to bit has a sum of 107 for the first bit and 135 for each further one.
    Row {
        name: "f.bench",
        text: b"INPUT(b00)\nINPUT(b01)\nINPUT(b02)\nb03 = XOR(b01, b02)\nb04 = AND(b01, b02)\nb05 = AND(b00, b03)\n\
                  b06 = XOR(b00, b03)\nb10 = OR(b04, b05)\n",
        words: &["plan", "f.bench"],
        script: b"",
        out: b"clauses 17\nsum 107\n",
        status: 0,
    },
    Row {
        name: "f.bench",
        text: b"INPUT(b00)\nINPUT(b01)\nINPUT(b02)\nb03 = XOR(b01, b02)\nb04 = AND(b01, b02)\nb05 = AND(b00, b03)\n\
                  b06 = XOR(b00, b03)\nb10 = OR(b04, b05)\nINPUT(b11)\nINPUT(b12)\nb13 = XOR(b11, b12)\n\
                  b14 = AND(b11, b12)\nb15 = AND(b10, b13)\nb16 = XOR(b10, b13)\nb20 = OR(b14, b15)\n",
        words: &["plan", "f.bench"],
        script: b"",
        out: b"clauses 34\nsum 242\n",
        status: 0,
    },
    // A wire that is in no clause may have both values.
    Row {
        name: "f.bench",
        text: b"INPUT(a)\nINPUT(z)\nb = BUFF(a)\n",
        words: &["serve", "f.bench"],
        script: b"open S\nsee S a=1\nsee S b=0\nprobe S z\n",
        out: b"ready 1 3\nS open\nS ok\nS ok\nS probe z 1 1\n",
        status: 0,
    },
    // Wires are in the order of their whole names.
    Row {
        name: "f.bench",
        text: b"INPUT(a)\na1 = BUFF(a)\naA = BUFF(a)\n",
        words: &["serve", "f.bench", "--frames", "2"],
        script: b"open S\nprobes S\n",
        out: b"ready 2 6\nS open\nS probe a1@0001 0 0\nS probe a1@0002 0 0\nS probe a@0001 0 0\nS probe a@0002 0 0\n\
                 S probe aA@0001 0 0\nS probe aA@0002 0 0\nS end\n",
        status: 0,
    },
    // The same loop along a forest.
    Row {
        name: "f.bench",
        text: b"q = DFF(n)\nn = NOT(q)\n",
        words: &["serve", "f.bench", "--narrow", "--frames", "3"],
        script: b"open S\nsee S q@0001=0\nsee S q@0003=1\nlist S 5\n",
        out: b"ready 2 6\nS open\nS ok\nS ok\nS diag n\nS diag q\nS end\n",
        status: 0,
    },
    // Along a forest the sum is no greater than by names that rise from bit to bit. All that is added is 0, so the upper sum should be 0: a
    // diagnosis is its own gate, its half sum, or one of the gates that carry. They are reported in the order of the names.
    Row {
        name: "f.bench",
        text: BY_KIND,
        words: &["serve", "f.bench", "--narrow", "--budget", "242"],
        script: b"open S\nsee S in_c0=0\nsee S in_a0=0\nsee S in_b0=0\nsee S in_a1=0\nsee S in_b1=0\n\
                    see S xor_sum1=1\nmin S\nlist S 9\nprobe S or_out0\n",
        out: b"ready 10 15\nS open\nS ok\nS ok\nS ok\nS ok\nS ok\nS ok\nS min 1 and_both0\nS diag and_both0\n\
                 S diag and_carried0\nS diag or_out0\nS diag xor_half1\nS diag xor_sum1\nS end\nS probe or_out0 1 1\n",
        status: 0,
    },
    Row {
        name: "f.bench",
        text: C17,
        words: &["serve", "f.bench", "--sessions", "2", "--narrow"],
        script: b"open S\nsee S 1=0\nsee S 2=0\nsee S 3=0\nsee S 6=0\nsee S 7=0\nsee S 22=1\nsee S 23=0\nmin S\n\
                    list S 9\n",
        out: b"ready 6 11\nS open\nS ok\nS ok\nS ok\nS ok\nS ok\nS ok\nS ok\nS min 1 10\nS diag 10\nS diag 22\n\
                 S end\n",
        status: 0,
    },
    // In the order of the row the sum is five for each buffer, and two more.
    Row {
        name: "f.bench",
        text: SCRAMBLED,
        words: &["serve", "f.bench", "--budget", "37"],
        script: b"",
        out: b"error: sum above 37\n",
        status: 3,
    },
    Row {
        name: "f.bench",
        text: SCRAMBLED,
        words: &["serve", "f.bench", "--narrow", "--budget", "37"],
        script: b"",
        out: b"ready 7 8\n",
        status: 0,
    },
    Row {
        name: "f.bench",
        text: INPUT,
        words: &["plan", "f.bench", "--narrow"],
        script: b"",
        out: b"clauses 0\nsum 1\n",
        status: 0,
    },
    // Both clauses have all variables, so each order has the same sum.
    Row {
        name: "f.bench",
        text: NOT,
        words: &["plan", "f.bench", "--narrow"],
        script: b"open S\n",
        out: b"clauses 2\nsum 7\n",
        status: 0,
    },
    Row {
        name: "f.bench",
        text: NOT,
        words: &["compile", "f.bench", "--narrow", "--budget", "6"],
        script: b"open S\n",
        out: b"error: sum above 6\n",
        status: 3,
    },
    // At the cost 2 both may be faulty.
    Row {
        name: "f.bench",
        text: b"q = DFF(n)\nn = NOT(q)\n",
        words: &[
            "serve", "f.bench", "--levels", "2", "--narrow", "--frames", "3",
        ],
        script: b"open S\nsee S q@0001=0\nsee S q@0003=1\nlevels S 9\n",
        out: b"ready 2 6\nS open\nS ok\nS ok\nS level 1 n\nS level 1 q\nS level 2 n q\nS end\n",
        status: 0,
    },
    // Along a forest the sum is far smaller, and so are the bits.
    Row {
        name: "f.bench",
        text: BY_KIND,
        words: &["serve", "f.bench", "--levels", "100000", "--narrow"],
        script: b"open S\nlevel S\n",
        out: b"ready 10 15\nS open\nS level 0\n",
        status: 0,
    },
];
