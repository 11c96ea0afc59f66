//! Rows over designs.
use crate::files::{DEAR, EQUAL, FREE, VALVE};
use crate::rows::Row;

pub static DESIGNS: [Row<'static>; 19] = [
    // No clause has the part, but its failure still costs 1.
    Row {
        name: "f.dev",
        text: FREE,
        words: &["serve", "f.dev"],
        script: b"open S\nsee S d=1\nhold S u=bad\nmin S\nnext S\nnext S\nhold S u=ok\nmin S\n",
        out: b"ready 1 2\nS open\nS ok\nS ok\nS min 1 u\nS diag u\nS end\nS ok\nS min 0\n",
        status: 0,
    },
    Row {
        name: "f.dev",
        text: VALVE,
        words: &["serve", "f.dev"],
        script: b"open S\nsee S a=0\nsee S y=1\nmin S\nnext S\nlist S 3\nprobe S y\nprobes S\nblame S\nunsee S y\n\
                    min S\nsee S a=1\nsee S y=0\nmin S\n",
        out: b"ready 1 2\nS open\nS ok\nS ok\nS inconsistent\nS inconsistent\nS inconsistent\nS inconsistent\n\
                 S inconsistent\nS inconsistent\nS ok\nS min 0\nS ok\nS ok\nS min 1 u\n",
        status: 0,
    },
    // The failure of p costs as much as those of q and r together, so there are two diagnoses at the cost 2.
    Row {
        name: "f.dev",
        text: b"type C a y\nok 00\nok 11\ncost 2\nend\ntype D a y\nok 00\nok 11\nend\nblock M a c d\nwire b\n\
                  part p C a b\npart q D b c\npart r D b d\nend\ntop M\n",
        words: &["serve", "f.dev"],
        script: b"open S\nsee S a=0\nsee S c=1\nsee S d=1\nmin S\nlist S 5\nprobe S b\nhold S p=ok\nmin S\n\
                    see S d=0\nmin S\n",
        out: b"ready 3 4\nS open\nS ok\nS ok\nS ok\nS min 2 p\nS diag p\nS diag q r\nS end\nS probe b 2 2\nS ok\n\
                 S min 2 q r\nS ok\nS min 1 q\n",
        status: 0,
    },
    // A part that is in no clause may be faulty too.
    Row {
        name: "f.dev",
        text: FREE,
        words: &["serve", "f.dev", "--least", "--levels", "1"],
        script: b"open S\nlevels S 3\n",
        out: b"ready 1 2\nS open\nS level 0\nS level 1 u\nS end\n",
        status: 0,
    },
    // A block of a block and a type. Part m.v is faulty only if its ports are 0 and 1, and a failure of w costs 30.
    Row {
        name: "f.dev",
        text: b"type T p q # two ports\nok 00\nok 11\nbad 01\nend\ntype U p\nok 1\ncost 30\nend\nblock M a b\n\
                  wire c\npart u NOT a c\npart v T c b\nend\n\nblock N x\npart m M x x\npart w U x\nend\ntop N\n\
                  # after\n",
        words: &["serve", "f.dev"],
        script: b"open S\nmin S\nlist S 5\nprobes S\nblame S\nsee S x=0\nmin S\nlist S 5\nunsee S x\nhold S m.u=ok\n\
                    list S 5\nhold S m.v=ok\nmin S\n",
        out: b"ready 3 2\nS open\nS min 1 m.u\nS diag m.u\nS diag m.v\nS end\nS probe m.c 1 1\nS probe x 31 1\n\
                 S end\nS blame m.u sometimes\nS blame m.v sometimes\nS blame w never\nS end\nS ok\nS min 31 m.u w\n\
                 S diag m.u w\nS end\nS ok\nS ok\nS diag m.v\nS end\nS ok\nS inconsistent\n",
        status: 0,
    },
    // A full adder of two half adders. One and one should carry, but no carry is seen.
    Row {
        name: "f.dev",
        text: b"block HALF a b sum carry\npart x XOR a b sum\npart g AND a b carry\nend\n\
                  block FULL a b c sum carry\nwire s g1 g2\npart first HALF a b s g1\npart second HALF s c sum g2\n\
                  part or OR g1 g2 carry\nend\ntop FULL\n",
        words: &["serve", "f.dev"],
        script: b"open S\nprobes S\nblame S\nsee S a=1\nsee S b=1\nsee S c=0\nsee S carry=0\nlist S 5\nprobes S\n",
        out: b"ready 5 8\nS open\nS probe a 0 0\nS probe b 0 0\nS probe c 0 0\nS probe carry 0 0\nS probe g1 0 0\n\
                 S probe g2 0 0\nS probe s 0 0\nS probe sum 0 0\nS end\nS blame first.g never\nS blame first.x never\n\
                 S blame or never\nS blame second.g never\nS blame second.x never\nS end\nS ok\nS ok\nS ok\nS ok\n\
                 S diag first.g\nS diag or\nS end\nS probe g1 1 1\nS probe g2 1 2\nS probe s 1 2\nS probe sum 1 2\n\
                 S end\n",
        status: 0,
    },
    // One of p and q, which are in a row, is faulty, and r may be anything. Both cost the same, so there are two diagnoses. The listing
    // goes on after any state.
    Row {
        name: "f.dev",
        text: EQUAL,
        words: &["serve", "f.dev"],
        script: b"open S\nsee S a=0\nsee S y=1\nmin S\nlist S 9\nblame S\nafter S p q r\nnext S\nafter S p q\n\
                    next S\nnext S\nafter S\nnext S\nhold S p=ok\nafter S q r\nnext S\nnext S\nhold S q=ok\n\
                    after S p q\nnext S\nmin S\nblame S\nprobe S b\nunsee S y\nprobe S y\nblame S\n",
        out: b"ready 3 4\nS open\nS ok\nS ok\nS min 1 p\nS diag p\nS diag q\nS end\nS blame p sometimes\n\
                 S blame q sometimes\nS blame r never\nS end\nS ok\nS diag p\nS ok\nS diag p\nS diag q\nS ok\nS end\n\
                 S ok\nS ok\nS diag q\nS end\nS ok\nS ok\nS inconsistent\nS inconsistent\nS inconsistent\n\
                 S inconsistent\nS ok\nS probe y 0 -\nS blame p never\nS blame q never\nS blame r never\nS end\n",
        status: 0,
    },
    // The cheaper of both is the diagnosis, and a part that is held to be faulty still has its cost.
    Row {
        name: "f.dev",
        text: DEAR,
        words: &["serve", "f.dev"],
        script: b"open S\nsee S a=0\nsee S y=1\nmin S\nlist S 9\nprobes S\nblame S\nhold S r=bad\nmin S\nblame S\n\
                    hold S p=ok\nmin S\nnext S\nnext S\nblame S\nhold S q=ok\nmin S\nunhold S q\nhold S p=bad\nmin S\n\
                    probe S b\nblame S\n",
        out: b"ready 3 4\nS open\nS ok\nS ok\nS min 2 p\nS diag p\nS end\nS probe b 3 2\nS probe d 2 2\nS end\n\
                 S blame p always\nS blame q never\nS blame r never\nS end\nS ok\nS min 9 p r\nS blame p always\n\
                 S blame q never\nS blame r always\nS end\nS ok\nS min 10 q r\nS diag q r\nS end\nS blame p never\n\
                 S blame q always\nS blame r always\nS end\nS ok\nS inconsistent\nS ok\nS ok\nS min 9 p r\n\
                 S probe b 12 9\nS blame p always\nS blame q never\nS blame r always\nS end\n",
        status: 0,
    },
    // Both are faulty if the wire between them is seen too. If the end is not seen, each of its values has a cost.
    Row {
        name: "f.dev",
        text: DEAR,
        words: &["serve", "f.dev"],
        script: b"open S\nsee S a=0\nprobe S y\nblame S\nsee S b=1\nsee S y=0\nmin S\nlist S 2\nblame S\n\
                    hold S r=bad\nmin S\nhold S p=bad\nmin S\nunsee S b\nunsee S y\nunhold S r\nprobe S y\nblame S\n",
        out: b"ready 3 4\nS open\nS ok\nS probe y 0 2\nS blame p never\nS blame q never\nS blame r never\nS end\n\
                 S ok\nS ok\nS min 5 p q\nS diag p q\nS end\nS blame p always\nS blame q always\nS blame r never\n\
                 S end\nS ok\nS min 12 p q r\nS ok\nS min 12 p q r\nS ok\nS ok\nS ok\nS probe y 2 2\n\
                 S blame p always\nS blame q never\nS blame r never\nS end\n",
        status: 0,
    },
    // The later one is cheaper.
    Row {
        name: "f.dev",
        text: b"type P a y\nok 00\nok 11\ncost 3\nend\ntype Q a y\nok 00\nok 11\ncost 2\nend\ntype R d\nok 0\nok 1\n\
                  end\nblock M a d y\nwire b\npart p P a b\npart q Q b y\npart r R d\nend\ntop M\n",
        words: &["serve", "f.dev"],
        script: b"open S\nsee S a=0\nsee S y=1\nmin S\nnext S\nnext S\nafter S p\nnext S\nnext S\nprobe S y\n",
        out: b"ready 3 4\nS open\nS ok\nS ok\nS min 2 q\nS diag q\nS end\nS ok\nS diag q\nS end\nS probe y - 2\n",
        status: 0,
    },
    Row {
        name: "f.dev",
        text: b"type P a y\nok 00\nok 11\nend\ntype Q a y\nok 00\nok 11\ncost 4\nend\ntype R d\nok 0\nok 1\ncost 5\n\
                  end\nblock M a d y\nwire b\npart p P a b\npart q Q b y\npart r R d\nend\ntop M\n",
        words: &["serve", "f.dev"],
        script: b"open S\nsee S a=0\nsee S y=1\nhold S r=bad\nmin S\nlist S 9\nhold S p=ok\nlist S 9\nunhold S r\n\
                    min S\nblame S\nprobe S y\n",
        out: b"ready 3 4\nS open\nS ok\nS ok\nS ok\nS min 6 p r\nS diag p r\nS end\nS ok\nS diag q r\nS end\nS ok\n\
                 S min 4 q\nS blame p never\nS blame q always\nS blame r never\nS end\nS probe y - 4\n",
        status: 0,
    },
    // By rising cost r may be faulty too. Of states with the same cost, the one in which the first part is faulty comes first.
    Row {
        name: "f.dev",
        text: EQUAL,
        words: &["serve", "f.dev", "--levels", "3"],
        script: b"open S\nsee S a=0\nsee S y=1\nlevels S 9\nhold S p=ok\nhold S q=ok\nlevel S\nunhold S p\n\
                    unhold S q\nafter S\nlevel S\nafter S p q r\nlevel S\nafter S p q\nlevels S 2\n",
        out: b"ready 3 4\nS open\nS ok\nS ok\nS level 1 p\nS level 1 q\nS level 2 p q\nS level 2 p r\n\
                 S level 2 q r\nS level 3 p q r\nS end\nS ok\nS ok\nS inconsistent\nS ok\nS ok\nS ok\nS level 1 p\n\
                 S ok\nS end\nS ok\nS level 2 p r\nS level 2 q r\n",
        status: 0,
    },
    Row {
        name: "f.dev",
        text: EQUAL,
        words: &["serve", "f.dev", "--levels", "1"],
        script: b"open S\nsee S a=0\nsee S y=1\nlevels S 9\nafter S p q r\nlevel S\n",
        out: b"ready 3 4\nS open\nS ok\nS ok\nS level 1 p\nS level 1 q\nS end\nS ok\nS end\n",
        status: 0,
    },
    Row {
        name: "f.dev",
        text: EQUAL,
        words: &["serve", "f.dev", "--levels", "0"],
        script: b"open S\nsee S a=0\nsee S y=1\nlevels S 9\nunsee S y\nlevels S 9\n",
        out: b"ready 3 4\nS open\nS ok\nS ok\nS end\nS ok\nS level 0\nS end\n",
        status: 0,
    },
    Row {
        name: "f.dev",
        text: b"type P a y\nok 00\nok 11\ncost 2\nend\ntype Q a y\nok 00\nok 11\nend\ntype R d\nok 0\nok 1\nend\n\
                  block M a d y\nwire b\npart p P a b\npart q Q b y\npart r R d\nend\ntop M\n",
        words: &["serve", "f.dev", "--levels", "2"],
        script: b"open S\nsee S a=0\nsee S y=1\nlevels S 9\n",
        out: b"ready 3 4\nS open\nS ok\nS ok\nS level 1 q\nS level 2 p\nS level 2 q r\nS end\n",
        status: 0,
    },
    Row {
        name: "f.dev",
        text: b"type P a y\nok 00\nok 11\nend\ntype Q a y\nok 00\nok 11\nend\ntype R d\nok 0\nok 1\ncost 5\nend\n\
                  block M a d y\nwire b\npart p P a b\npart q Q b y\npart r R d\nend\ntop M\n",
        words: &["serve", "f.dev", "--levels", "10"],
        script: b"open S\nsee S a=0\nsee S y=1\nhold S p=ok\nhold S r=bad\nlevels S 9\n",
        out: b"ready 3 4\nS open\nS ok\nS ok\nS ok\nS ok\nS level 6 q r\nS end\n",
        status: 0,
    },
    // The first part alone costs more than the greatest cost that is listed.
    Row {
        name: "f.dev",
        text: b"type P a y\nok 00\nok 11\ncost 5\nend\ntype Q a y\nok 00\nok 11\nend\ntype R d\nok 0\nok 1\nend\n\
                  block M a d y\nwire b\npart p P a b\npart q Q b y\npart r R d\nend\ntop M\n",
        words: &["serve", "f.dev", "--levels", "2"],
        script: b"open S\nsee S a=0\nsee S y=1\nhold S r=bad\nlevels S 9\n",
        out: b"ready 3 4\nS open\nS ok\nS ok\nS ok\nS level 2 q r\nS end\n",
        status: 0,
    },
    // The possible costs of a node take several words.
    Row {
        name: "f.dev",
        text: b"type P a y\nok 00\nok 11\ncost 40\nend\ntype Q a y\nok 00\nok 11\ncost 70\nend\ntype R d\nok 0\n\
                  ok 1\ncost 33\nend\nblock M a d y\nwire b\npart p P a b\npart q Q b y\npart r R d\nend\ntop M\n",
        words: &["serve", "f.dev", "--levels", "143"],
        script: b"open S\nsee S a=0\nsee S y=1\nlevels S 9\nhold S r=bad\nlevels S 9\n",
        out: b"ready 3 4\nS open\nS ok\nS ok\nS level 40 p\nS level 70 q\nS level 73 p r\nS level 103 q r\n\
                 S level 110 p q\nS level 143 p q r\nS end\nS ok\nS level 73 p r\nS level 103 q r\nS level 143 p q r\n\
                 S end\n",
        status: 0,
    },
    Row {
        name: "f.dev",
        text: b"type P a y\nok 00\nok 11\ncost 1000\nend\ntype Q a y\nok 00\nok 11\ncost 999\nend\ntype R d\nok 0\n\
                  ok 1\nend\nblock M a d y\nwire b\npart p P a b\npart q Q b y\npart r R d\nend\ntop M\n",
        words: &["serve", "f.dev", "--levels", "2000"],
        script: b"open S\nsee S a=0\nsee S y=1\nlevels S 9\n",
        out: b"ready 3 4\nS open\nS ok\nS ok\nS level 999 q\nS level 1000 p\nS level 1000 q r\nS level 1001 p r\n\
                 S level 1999 p q\nS level 2000 p q r\nS end\n",
        status: 0,
    },
];
