//! Rows over the texts of graphs.
use crate::files::{ANY, BOTH_TRUE, EITHER_FAULTY, EITHER_OF_THREE, FALSE, SHARED};
use crate::rows::Row;

pub static GRAPHS: [Row<'static>; 21] = [
    Row {
        name: "f.nnf",
        text: ANY,
        words: &["check", "f.nnf"],
        script: b"open S\n",
        out: b"decomposable 3 2 1\n",
        status: 0,
    },
    Row {
        name: "f.nnf",
        text: FALSE,
        words: &["check", "f.nnf"],
        script: b"open S\n",
        out: b"decomposable 1 0 0\n",
        status: 0,
    },
    // One of two parts is faulty, and there is no wire.
    Row {
        name: "f.nnf",
        text: EITHER_FAULTY,
        words: &["ask", "f.nnf", "2"],
        script: b"open S\nmin S\nlist S 5\nhold S 00001=ok\nblame S\n",
        out: b"ready 2 0\nS open\nS min 1 00001\nS diag 00001\nS diag 00002\nS end\nS ok\nS blame 00001 never\n\
                 S blame 00002 always\nS end\n",
        status: 0,
    },
    Row {
        name: "f.nnf",
        text: EITHER_FAULTY,
        words: &["ask", "f.nnf", "3"],
        script: b"open S\n",
        out: b"error: health 3 above 2\n",
        status: 1,
    },
    // The part is ok and the wire is 1.
    Row {
        name: "f.nnf",
        text: BOTH_TRUE,
        words: &["ask", "f.nnf", "1"],
        script: b"open S\nprobe S 00002\nsee S 00002=0\nmin S\n",
        out: b"ready 1 1\nS open\nS probe 00002 - 0\nS ok\nS inconsistent\n",
        status: 0,
    },
    // A name has five digits, and is that of a part or of a wire.
    Row {
        name: "f.nnf",
        text: BOTH_TRUE,
        words: &["ask", "f.nnf", "1", "--sessions", "1"],
        script: b"open S\nopen T\nsee S 2=0\nsee S 00001=0\nhold S 00002=ok\n",
        out: b"ready 1 1\nS open\nT error 8 full\nS error 9 no wire\nS error 9 no wire\nS error 10 no part\n",
        status: 0,
    },
    Row {
        name: "f.nnf",
        text: SHARED,
        words: &["ask", "f.nnf", "1"],
        script: b"open S\n",
        out: b"error: fault 7 shared node 2 variable 1\n",
        status: 1,
    },
    // There are also more parts than variables, but the text is refused first.
    Row {
        name: "f.nnf",
        text: SHARED,
        words: &["ask", "f.nnf", "2"],
        script: b"open S\n",
        out: b"error: fault 7 shared node 2 variable 1\n",
        status: 1,
    },
    Row {
        name: "f.nnf",
        text: b"nnf 1 0 16386\nA 0\n",
        words: &["ask", "f.nnf", "1"],
        script: b"open S\n",
        out: b"error: wires 16385 above 16384\n",
        status: 1,
    },
    // Without parts there is one health state.
    Row {
        name: "f.nnf",
        text: b"nnf 1 0 2\nA 0\n",
        words: &["ask", "f.nnf", "0"],
        script: b"open S\nmin S\nlist S 2\nprobes S\n",
        out: b"ready 0 2\nS open\nS min 0\nS diag\nS end\nS probe 00001 0 0\nS probe 00002 0 0\nS end\n",
        status: 0,
    },
    // No node mentions the part, but its failure still costs 1.
    Row {
        name: "f.nnf",
        text: b"nnf 1 0 1\nA 0\n",
        words: &["ask", "f.nnf", "1"],
        script: b"open S\nhold S 00001=bad\nmin S\nhold S 00001=ok\nmin S\n",
        out: b"ready 1 0\nS open\nS ok\nS min 1 00001\nS ok\nS min 0\n",
        status: 0,
    },
    Row {
        name: "f.nnf",
        text: EITHER_FAULTY,
        words: &["ask", "absent.nnf", "2"],
        script: b"open S\n",
        out: b"error: read\n",
        status: 4,
    },
    // Over a graph both are refused.
    Row {
        name: "f.nnf",
        text: EITHER_FAULTY,
        words: &["ask", "f.nnf", "2"],
        script: b"open S\nlevel S\nleastnnf S\n",
        out: b"ready 2 0\nS open\nS error 11 no levels\nS error 12 no least\n",
        status: 0,
    },
    // No node mentions the third part.
    Row {
        name: "f.nnf",
        text: EITHER_OF_THREE,
        words: &["ask", "f.nnf", "3"],
        script: b"open S\nmin S\nlist S 5\nafter S 00001 00002 00003\nnext S\nafter S\nnext S\nhold S 00003=bad\n\
                    min S\nafter S 00001 00003\nnext S\nnext S\nblame S\nunhold S 00003\nhold S 00001=ok\n\
                    after S 00002 00003\nnext S\nhold S 00002=ok\nnext S\n",
        out: b"ready 3 0\nS open\nS min 1 00001\nS diag 00001\nS diag 00002\nS end\nS ok\nS diag 00001\nS ok\n\
                 S end\nS ok\nS min 2 00001 00003\nS ok\nS diag 00002 00003\nS end\nS blame 00001 sometimes\n\
                 S blame 00002 sometimes\nS blame 00003 always\nS end\nS ok\nS ok\nS ok\nS diag 00002\nS ok\n\
                 S inconsistent\n",
        status: 0,
    },
    // The wire is 1, or one of the first two parts is faulty.
    Row {
        name: "f.nnf",
        text: b"nnf 4 3 4\nL -1\nL -2\nL 4\nO 0 3 0 1 2\n",
        words: &["ask", "f.nnf", "3"],
        script: b"open S\nmin S\nprobes S\nblame S\nhold S 00001=bad\nprobe S 00004\nhold S 00001=ok\n\
                    hold S 00002=ok\nprobe S 00004\nblame S\nsee S 00004=0\nprobe S 00004\nblame S\nunhold S 00001\n\
                    unhold S 00002\nprobe S 00004\nlist S 5\nblame S\nhold S 00003=bad\nprobe S 00004\nblame S\n",
        out: b"ready 3 1\nS open\nS min 0\nS probe 00004 1 0\nS end\nS blame 00001 never\nS blame 00002 never\n\
                 S blame 00003 never\nS end\nS ok\nS probe 00004 1 1\nS ok\nS ok\nS probe 00004 - 0\n\
                 S blame 00001 never\nS blame 00002 never\nS blame 00003 never\nS end\nS ok\nS inconsistent\n\
                 S inconsistent\nS ok\nS ok\nS probe 00004 1 -\nS diag 00001\nS diag 00002\nS end\n\
                 S blame 00001 sometimes\nS blame 00002 sometimes\nS blame 00003 never\nS end\nS ok\n\
                 S probe 00004 2 -\nS blame 00001 sometimes\nS blame 00002 sometimes\nS blame 00003 always\nS end\n",
        status: 0,
    },
    // A buffer: the first variable is its health, the second its input and the third its output. First its input is 1 and its output 0;
    // then the output alone is seen as 1, and it is held to be ok; then nothing is seen, and it is held to be faulty.
    Row {
        name: "f.nnf",
        text: b"nnf 11 10 3\nL 1\nL -1\nL 2\nL -2\nL 3\nL -3\nA 2 2 4\nA 2 3 5\nO 0 2 6 7\nA 2 0 8\nO 0 2 1 9\n",
        words: &["ask", "f.nnf", "1"],
        script: b"open S\nsee S 00002=1\nsee S 00003=0\ndnnf S\nunsee S 00002\nsee S 00003=1\nhold S 00001=ok\n\
                    dnnf S\nunsee S 00003\nhold S 00001=bad\ndnnf S\n",
        out: b"ready 1 2\nS open\nS ok\nS ok\nS dnnf\nnnf 12 11 1\nL 1\nL -1\nA 0\nO 0 0\nO 0 0\nA 0\nA 2 2 4\n\
                 A 2 3 5\nO 0 2 6 7\nA 2 0 8\nO 0 2 1 9\nA 1 10\nS ok\nS ok\nS ok\nS dnnf\nnnf 13 12 1\nA 0\nO 0 0\n\
                 A 0\nA 0\nA 0\nO 0 0\nA 2 2 4\nA 2 3 5\nO 0 2 6 7\nA 2 0 8\nO 0 2 1 9\nL 1\nA 2 10 11\nS ok\nS ok\n\
                 S dnnf\nnnf 13 12 1\nO 0 0\nA 0\nA 0\nA 0\nA 0\nA 0\nA 2 2 4\nA 2 3 5\nO 0 2 6 7\nA 2 0 8\n\
                 O 0 2 1 9\nL -1\nA 2 10 11\n",
        status: 0,
    },
    // Held parts are written after the nodes.
    Row {
        name: "f.nnf",
        text: b"nnf 1 0 2\nA 0\n",
        words: &["ask", "f.nnf", "2"],
        script: b"open S\nhold S 00002=bad\ndnnf S\nhold S 00001=ok\ndnnf S\n",
        out: b"ready 2 0\nS open\nS ok\nS dnnf\nnnf 3 2 2\nA 0\nL -2\nA 2 0 1\nS ok\nS dnnf\nnnf 4 3 2\nA 0\nL 1\n\
                 L -2\nA 3 0 1 2\n",
        status: 0,
    },
    Row {
        name: "f.nnf",
        text: b"nnf 1 0 2\nO 0 0\n",
        words: &["ask", "f.nnf", "2"],
        script: b"open S\ndnnf S\n",
        out: b"ready 2 0\nS open\nS dnnf\nnnf 2 1 2\nO 0 0\nA 1 0\n",
        status: 0,
    },
    // Blanks, leading zeros and the first number of an Or node are read and not written.
    Row {
        name: "f.nnf",
        text: b"\nnnf 03 2 01\n\tL 1\n L -1\r\n \nO 9 2 00 1",
        words: &["ask", "f.nnf", "1"],
        script: b"open S\ndnnf S\n",
        out: b"ready 1 0\nS open\nS dnnf\nnnf 4 3 1\nL 1\nL -1\nO 0 2 0 1\nA 1 2\n",
        status: 0,
    },
    Row {
        name: "f.nnf",
        text: b"nnf 01 00000000000000000000 0000000001\nL -0000000001\n",
        words: &["check", "f.nnf"],
        script: b"",
        out: b"decomposable 1 0 1\n",
        status: 0,
    },
    Row {
        name: "f.nnf",
        text: b"nnf 1 0 0\nA 0\n",
        words: &["check", "f.nnf"],
        script: b"",
        out: b"decomposable 1 0 0\n",
        status: 0,
    },
];
