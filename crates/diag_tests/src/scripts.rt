//! Rows of long scripts, most of them over a chain of two buffers.
use crate::files::CHAIN;
use crate::rows::Row;

/// Three sessions that take turns. In A the chain puts out 1 for 0, in B nothing is wrong, and in C part b is held to be faulty. Each line
/// has one reply.
pub const TURNS: &[u8] =
    b"open A\nopen B\nopen C\nsee A a=0\nsee B a=0\nhold C b=bad\nsee A c=1\nsee B c=0\nmin A\nmin B\nmin C\n\
      next A\nnext C\nnext B\nnext A\nnext C\nnext B\n";

pub const TURNS_OUT: &[u8] =
    b"ready 2 3\nA open\nB open\nC open\nA ok\nB ok\nC ok\nA ok\nB ok\nA min 1 b\nB min 0\nC min 1 b\n\
    A diag b\nC diag b\nB diag\nA diag c\nC end\nB end\n";

/// A list, a refusal, and two reports of several lines each.
pub const REPORTS: &[u8] = b"open S\nmin S\nlist S 3\nclose T\nprobes S\nblame S\n";

pub const REPORTS_OUT: &[u8] =
    b"ready 2 3\nS open\nS min 0\nS diag\nS end\nT error 6 no session\nS probe a 0 0\nS probe b 0 0\nS probe c 0 0\nS end\n\
    S blame b never\nS blame c never\nS end\n";

pub static SCRIPTS: [Row<'static>; 13] = [
    // Two sessions side by side, and no room for a third. In S the end of the chain is wrong, in T nothing is.
    Row {
        name: "f.bench",
        text: CHAIN,
        words: &["serve", "f.bench", "--sessions", "2"],
        script: b"min S\nopen S\nopen S\nopen T\nopen T\nopen U\nsee U z=0\nsee S z=0\nunsee S z\nprobe S z\n\
                    hold S a=ok\nunhold S a\nafter S b a\nsee S a=0\nsee T a=0\nsee S c=1\nsee T c=0\nmin S\nmin T\n\
                    next S\nnext T\nnext S\nnext T\nprobe S b\nprobe T b\nblame S\nblame T\nhold S b=ok\nblame S\n\
                    probe S b\nprobes S\nlist S 9\nhold S c=ok\nmin S\nnext S\nlist S 3\nprobe S a\nprobes S\n\
                    blame S\nmin T\nunhold S b\nmin S\nhold S c=bad\nmin S\nunsee S c\nmin S\nunhold S c\nmin S\n\
                    probe S a\nsee S a=1\nprobe S a\nclose S\nclose S\nopen U\nopen S\nclose T\nopen S\nprobes S\n\
                    next S\nnext T\nnext U\n",
        out: b"ready 2 3\nS error 6 no session\nS open\nS error 7 open already\nT open\nT error 7 open already\n\
                 U error 8 full\nU error 6 no session\nS error 9 no wire\nS error 9 no wire\nS error 9 no wire\n\
                 S error 10 no part\nS error 10 no part\nS error 10 no part\nS ok\nT ok\nS ok\nT ok\nS min 1 b\n\
                 T min 0\nS diag b\nT diag\nS diag c\nT end\nS probe b 1 1\nT probe b 0 2\nS blame b sometimes\n\
                 S blame c sometimes\nS end\nT blame b never\nT blame c never\nT end\nS ok\nS blame b never\n\
                 S blame c always\nS end\nS probe b 1 -\nS probe b 1 -\nS end\nS diag c\nS end\nS ok\nS inconsistent\n\
                 S inconsistent\nS inconsistent\nS inconsistent\nS inconsistent\nS inconsistent\nT min 0\nS ok\n\
                 S min 1 b\nS ok\nS min 1 c\nS ok\nS min 1 c\nS ok\nS min 0\nS probe a 0 -\nS ok\nS probe a - 0\n\
                 S closed\nS error 6 no session\nU open\nS error 8 full\nT closed\nS open\nS probe a 0 0\n\
                 S probe b 0 0\nS probe c 0 0\nS end\nS diag\nT error 6 no session\nU diag\n",
        status: 0,
    },
    // The diagnoses are b and then c. The state in which both are faulty is none, and comes before them. A question leaves the point,
    // seeing or holding forgets it, even if nothing changes, and a refused line leaves it.
    Row {
        name: "f.bench",
        text: CHAIN,
        words: &["serve", "f.bench", "--sessions", "16"],
        script: b"open S\nsee S a=0\nsee S c=1\nnext S\nlist S 2\nnext S\nafter S\nnext S\nafter S b\nnext S\n\
                    after S c\nnext S\nafter S c b b\nlist S 2\nafter S b\nmin S\nprobe S b\nprobes S\nblame S\n\
                    next S\nsee S a=0\nnext S\nunsee S b\nnext S\nunhold S b\nnext S\nhold S c=ok\nnext S\nnext S\n\
                    unhold S c\nnext S\nhold S z=ok\nafter S z\nnext S\n",
        out: b"ready 2 3\nS open\nS ok\nS ok\nS diag b\nS diag c\nS end\nS end\nS ok\nS end\nS ok\nS diag c\nS ok\n\
                 S end\nS ok\nS diag b\nS diag c\nS ok\nS min 1 b\nS probe b 1 1\nS probe b 1 1\nS end\n\
                 S blame b sometimes\nS blame c sometimes\nS end\nS diag c\nS ok\nS diag b\nS ok\nS diag b\nS ok\n\
                 S diag b\nS ok\nS diag b\nS end\nS ok\nS diag b\nS error 10 no part\nS error 10 no part\nS diag c\n",
        status: 0,
    },
    Row {
        name: "f.bench",
        text: CHAIN,
        words: &["serve", "f.bench", "--sessions", "1"],
        script: b"open A\nopen B\nopen A\nclose A\nopen B\nmin A\nmin B\n",
        out: b"ready 2 3\nA open\nB error 8 full\nA error 7 open already\nA closed\nB open\nA error 6 no session\n\
                 B min 0\n",
        status: 0,
    },
    // Sessions whose names are prefixes of one another. A line changes its own session alone, and a closed session leaves room.
    Row {
        name: "f.bench",
        text: CHAIN,
        words: &["serve", "f.bench", "--sessions", "3"],
        script: b"open m\nopen ab\nopen a\nopen z\nsee ab a=0\nsee ab c=1\nhold a b=bad\nnext a\nmin m\nmin ab\nmin a\n\
                    unsee ab c\nmin ab\nclose ab\nnext ab\nopen ab\nmin ab\nnext a\nclose a\nmin m\nmin ab\n",
        out: b"ready 2 3\nm open\nab open\na open\nz error 8 full\nab ok\nab ok\na ok\na diag b\nm min 0\nab min 1 b\n\
                 a min 1 b\nab ok\nab min 0\nab closed\nab error 6 no session\nab open\nab min 0\na end\na closed\n\
                 m min 0\nab min 0\n",
        status: 0,
    },
    // Lines that are refused before any session is looked up, and lines without a reply.
    Row {
        name: "f.bench",
        text: CHAIN,
        words: &["serve", "f.bench", "--sessions", "1"],
        script: b"frob S\nMin S\nopen\nopen a(b\n\t open\tS\r\nsee S a\nsee S =0\nsee S a=2\nsee S a=0=1\n\
                    unsee S a=1\nhold S b\nhold S b=no\nafter S b=ok\nafter\nmin S S\nmin S # why\nlist S\nlist S 0\n\
                    list S 01\nlist S 1000001\nprobes S b\n\n \t\r\n# note\nlist S 1\nlist S 1000000\n",
        out: b"ready 2 3\nerror 1 unknown command\nerror 1 unknown command\nerror 2 bad words\nerror 3 bad name\n\
                 S open\nerror 2 bad words\nerror 3 bad name\nerror 4 bad value\nerror 4 bad value\nerror 3 bad name\n\
                 error 2 bad words\nerror 4 bad value\nerror 3 bad name\nerror 2 bad words\nerror 2 bad words\n\
                 error 2 bad words\nerror 2 bad words\nerror 4 bad value\nerror 4 bad value\nerror 4 bad value\n\
                 error 2 bad words\nS diag\nS end\n",
        status: 0,
    },
    // Each instance of a block has a wire of its own, and its parts have its path in their names.
    Row {
        name: "f.dev",
        text: b"block I a y\nwire w\npart p BUFF a w\npart q BUFF w y\nend\nblock M a b c\npart u I a b\n\
                  part v I b c\nend\ntop M\n",
        words: &["serve", "f.dev", "--sessions", "1"],
        script: b"open S\nsee S u.w=1\nsee S v.w=0\nsee S a=1\nsee S b=1\nlist S 9\nsee S w=1\nhold S u.p=ok\n\
                    hold S p=ok\n",
        out: b"ready 4 5\nS open\nS ok\nS ok\nS ok\nS ok\nS diag v.p\nS end\nS error 9 no wire\nS ok\n\
                 S error 10 no part\n",
        status: 0,
    },
    // What is seen in one session does not affect another.
    Row {
        name: "f.bench",
        text: CHAIN,
        words: &["serve", "f.bench"],
        script: b"open A\nopen B\nsee A a=0\nsee B a=0\nsee A c=1\nsee B c=0\nmin A\nmin B\nnext A\nnext B\nnext A\n\
                    next B\n",
        out: b"ready 2 3\nA open\nB open\nA ok\nB ok\nA ok\nB ok\nA min 1 b\nB min 0\nA diag b\nB diag\nA diag c\n\
                 B end\n",
        status: 0,
    },
    // Paths are in the order of all their bytes, the dot among them.
    Row {
        name: "f.dev",
        text: b"block I a y\nwire w\npart p BUFF a w\npart q BUFF w y\nend\nblock M a b c u-w\npart u I a b\n\
                  part u-p BUFF b c\npart u0 BUFF b c\nend\ntop M\n",
        words: &["serve", "f.dev"],
        script: b"open S\nsee S a=0\nsee S b=1\nlist S 9\nsee S b=0\nsee S c=1\nlist S 9\nblame S\nprobes S\n",
        out: b"ready 4 5\nS open\nS ok\nS ok\nS diag u.p\nS diag u.q\nS end\nS ok\nS ok\nS diag u-p u0\nS end\n\
                 S blame u-p always\nS blame u.p never\nS blame u.q never\nS blame u0 always\nS end\nS probe u-w 2 2\n\
                 S probe u.w 2 4\nS end\n",
        status: 0,
    },
    // Seeing the same once more forgets the point.
    Row {
        name: "f.bench",
        text: CHAIN,
        words: &["serve", "f.bench"],
        script: b"open S\nsee S a=0\nsee S c=1\nnext S\nnext S\nnext S\nsee S a=0\nnext S\nunsee S b\nnext S\n\
                    hold S zz=ok\nnext S\nnext S\n",
        out: b"ready 2 3\nS open\nS ok\nS ok\nS diag b\nS diag c\nS end\nS ok\nS diag b\nS ok\nS diag b\n\
                 S error 10 no part\nS diag c\nS end\n",
        status: 0,
    },
    // Blanks may be before, between and after the words of a line.
    Row {
        name: "f.bench",
        text: CHAIN,
        words: &["serve", "f.bench"],
        script: b"\t open\tS\r\nsee S a=0=1\nsee S =0\nhold S b\nhold S b=OK\nunsee S a=1\nafter S b=ok\nmin S S\n\
                    Min S\nmin S # why\nafter S b b b\nlist S 1\nlist S 1000001\nlist S 01\nlist S 1000000\n",
        out: b"ready 2 3\nS open\nerror 4 bad value\nerror 3 bad name\nerror 2 bad words\nerror 4 bad value\n\
                 error 3 bad name\nerror 3 bad name\nerror 2 bad words\nerror 1 unknown command\nerror 2 bad words\n\
                 S ok\nS diag\nerror 4 bad value\nerror 4 bad value\nS end\n",
        status: 0,
    },
    // Blanks may be anywhere in a netlist, and keywords in small or capital letters.
    Row {
        name: "f.bench",
        text: b"\tinput ( a )\r\n OutPut(INPUT)# y = \nINPUT=buf(\ta)\nInput(a)",
        words: &["serve", "f.bench"],
        script: b"open S\nsee S a=1\nsee S INPUT=0\nmin S\n",
        out: b"ready 1 2\nS open\nS ok\nS ok\nS min 1 INPUT\n",
        status: 0,
    },
    Row {
        name: "f.bench",
        text: CHAIN,
        words: &["serve", "f.bench"],
        script: TURNS,
        out: TURNS_OUT,
        status: 0,
    },
    Row {
        name: "f.bench",
        text: CHAIN,
        words: &["serve", "f.bench"],
        script: REPORTS,
        out: REPORTS_OUT,
        status: 0,
    },
];
