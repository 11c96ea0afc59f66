//! Files that are refused, and the line that is written.

pub static REFUSED_NETLISTS: [(&[u8], &[u8]); 16] = [
    (b"INPUT(a)\ny = AND(a", b"error: line 2: fault 1 line\n"),
    (
        b"INPUT(a)\n\x7f = FOO(a)\n",
        b"error: line 2: fault 2 name\n",
    ),
    (
        b"INPUT(a)\ny = MUX(a, a)\n",
        b"error: line 2: fault 3 kind\n",
    ),
    (
        b"INPUT(a)\ny = AND(a, b)\nz = FOO(a)\n",
        b"error: line 3: fault 3 kind\n",
    ),
    (
        b"INPUT(a)\ny = NOT(a, a)\n",
        b"error: line 2: fault 4 inputs\n",
    ),
    // 65 inputs
    (
        b"INPUT(a)\n\
            y = AND(a,a,a,a,a,a,a,a,a,a,a,a,a,a,a,a,a,a,a,a,a,a,a,a,a,a,a,a,a,a,a,a,a,a,a,a,a,a,a,a,a,a,a,a,a,a,a,a,a,a,a,a,a,a,a,a,a,a,a,a,a,a,a,a,a)\n",
        b"error: line 2: fault 4 inputs\n",
    ),
    (
        b"INPUT(a)\nq = DFF(a)\n",
        b"error: line 2: fault 5 sequential\n",
    ),
    (
        b"INPUT(a)\ny = NOT(a)\ny = BUFF(a)\n",
        b"error: line 3: fault 6 driven twice\n",
    ),
    (
        b"INPUT(a)\nOUTPUT(z)\na = NOT(a)\n",
        b"error: line 3: fault 6 driven twice\n",
    ),
    (
        b"INPUT(a)\ny = AND(a, b)\n",
        b"error: line 2: fault 7 undriven\n",
    ),
    (b"INPUT(a)\ny = AND()\n", b"error: line 2: fault 4 inputs\n"),
    (b"INPUT(a)\ny = AND(a,)\n", b"error: line 2: fault 1 line\n"),
    (
        b"INPUT(a)\nINPUT(xxxxxxxxxxxxxxxxxxxxxxxxxxxxxxxxxxxxxxxxxxxxxxxxxxxxxxxxxxxxxxxxx)\n",
        b"error: line 2: fault 2 name\n",
    ),
    (
        b"y = NOT(y)\nINPUT(y)\n",
        b"error: line 2: fault 6 driven twice\n",
    ),
    (
        b"OUTPUT(b)\nINPUT(a)\n",
        b"error: line 1: fault 7 undriven\n",
    ),
    (b"INPUT(a)\n\x0b\n", b"error: line 2: fault 1 line\n"),
];

pub static REFUSED_DESIGNS: [(&[u8], &[u8]); 24] = [
    (b"part u NOT a b\n", b"error: line 1: fault 1 line\n"),
    (
        b"block M a.b\nend\ntop M\n",
        b"error: line 1: fault 2 name\n",
    ),
    (
        b"block M a\npart u a.b x\n",
        b"error: line 2: fault 2 name\n",
    ),
    (
        b"block M a\nwire b a c.d\n",
        b"error: line 2: fault 2 name\n",
    ),
    (b"block M a\nwire b a\n", b"error: line 2: fault 3 twice\n"),
    (
        b"block M a\npart u NOT a a\npart u BUFF a x\n",
        b"error: line 3: fault 3 twice\n",
    ),
    (
        b"type C a\ncost 2\ncost 2\n",
        b"error: line 3: fault 3 twice\n",
    ),
    (
        b"block M a\npart u V a\nend\ntop M\n",
        b"error: line 2: fault 4 unknown\n",
    ),
    (
        b"block M a\npart u NOT a\nend\ntop M\n",
        b"error: line 2: fault 5 ports\n",
    ),
    // 65 inputs and an output
    (
        b"block M a\n\
            part u AND a a a a a a a a a a a a a a a a a a a a a a a a a a a a a a a a a a a a a a a a a a a a a a a a a a a a a a a a a a a a a a a a a a\n",
        b"error: line 2: fault 5 ports\n",
    ),
    (b"type U p\nok 00\nend\n", b"error: line 2: fault 6 row\n"),
    (b"block M a\nend\n", b"error: line 0: fault 7 no top\n"),
    (
        b"block M a\nend\ntop M\nend\n",
        b"error: line 4: fault 8 after top\n",
    ),
    (b"type C a\ncost 0\nend\n", b"error: line 2: fault 9 cost\n"),
    (
        b"type C a\ncost 1001\nend\n",
        b"error: line 2: fault 9 cost\n",
    ),
    // four names of 64 bytes with three dots between them
    (
        b"block A p\npart xxxxxxxxxxxxxxxxxxxxxxxxxxxxxxxxxxxxxxxxxxxxxxxxxxxxxxxxxxxxxxxx NOT p p\nend\nblock B p\n\
            part xxxxxxxxxxxxxxxxxxxxxxxxxxxxxxxxxxxxxxxxxxxxxxxxxxxxxxxxxxxxxxxx A p\nend\nblock C p\n\
            part xxxxxxxxxxxxxxxxxxxxxxxxxxxxxxxxxxxxxxxxxxxxxxxxxxxxxxxxxxxxxxxx B p\nend\nblock D p\n\
            part xxxxxxxxxxxxxxxxxxxxxxxxxxxxxxxxxxxxxxxxxxxxxxxxxxxxxxxxxxxxxxxx C p\nend\ntop D\n",
        b"error: path 259 above 255\n",
    ),
    (
        b"block M a a\nend\ntop M\n",
        b"error: line 1: fault 3 twice\n",
    ),
    (b"type AND a\nend\n", b"error: line 1: fault 3 twice\n"),
    (
        b"block M a\npart u M a\nend\ntop M\n",
        b"error: line 2: fault 4 unknown\n",
    ),
    (
        b"type T a\nend\ntop T\n",
        b"error: line 3: fault 4 unknown\n",
    ),
    (
        b"type T a b c d e f g\nend\n",
        b"error: line 1: fault 5 ports\n",
    ),
    (b"type T\nend\n", b"error: line 1: fault 5 ports\n"),
    (
        b"block M a b\npart u not a b\nend\ntop M\n",
        b"error: line 2: fault 4 unknown\n",
    ),
    (b"block M a\ntop M\n", b"error: line 2: fault 1 line\n"),
];

pub static REFUSED_GRAPHS: [(&[u8], &[u8]); 27] = [
    (b"", b"error: fault 1 header\n"),
    (b"nnf 1 0 1\nX 1\n", b"error: line 2: fault 2 line\n"),
    (
        b"nnf 2 1 1\nA 1 1\nL 1\n",
        b"error: line 2: fault 3 child\n",
    ),
    (b"nnf 1 0 1\nL 2\n", b"error: line 2: fault 4 variable\n"),
    (b"nnf 2 0 1\nL 1\n", b"error: fault 5 counts 2 1\n"),
    (
        b"nnf 1 0 2147483649\nA 0\n",
        b"error: fault 6 bits 2147483649 above 2147483648\n",
    ),
    (
        b"nnf 3 2 1\nL 1\nL -1\nA 2 0 1\n",
        b"error: fault 7 shared node 2 variable 1\n",
    ),
    // both children of the And node are the literal of variable 1
    (
        b"nnf 2 2 1\nL 1\nA 2 0 0\n",
        b"error: fault 7 shared node 1 variable 1\n",
    ),
    (
        b"nnf 4294967295 0 1\nL 1\n",
        b"error: fault 5 counts 4294967295 1\n",
    ),
    (
        b"nnf 1 0 4294967295\nA 0\n",
        b"error: fault 6 bits 4294967295 above 2147483648\n",
    ),
    (
        b"nnf 1 0 1\nA 4294967295 0\n",
        b"error: line 2: fault 2 line\n",
    ),
    (b"nnf 4294967296 0 1\nA 0\n", b"error: fault 1 header\n"),
    (b"nnf 1 0 1\nL -0\n", b"error: line 2: fault 4 variable\n"),
    (
        b"nnf 1 0 1\nL 00000000001\n",
        b"error: line 2: fault 2 line\n",
    ),
    (
        b" \nnnf 1 0 1\n\r\nL 2",
        b"error: line 4: fault 4 variable\n",
    ),
    (b"nnf 0 0 1\nL 1\n", b"error: fault 1 header\n"),
    (b"c note\nnnf 1 0 1\nL 1\n", b"error: fault 1 header\n"),
    (b"nnf 1 7 1\nL 1\n", b"error: fault 5 counts 7 0\n"),
    (b" \n\t\n", b"error: fault 1 header\n"),
    (b"nnf 0 0 1\n", b"error: fault 1 header\n"),
    (b"nnf 1 0 1 0\nA 0\n", b"error: fault 1 header\n"),
    (
        b"nnf 1 18446744073709551616 1\nA 0",
        b"error: fault 1 header\n",
    ),
    (
        b"\nnnf 1 0 1\n \nL 00000000001",
        b"error: line 4: fault 2 line\n",
    ),
    (b"nnf 1 0 1\nO 0 1", b"error: line 2: fault 2 line\n"),
    (b"nnf 1 1 1\nA 1 0", b"error: line 2: fault 3 child\n"),
    (b"nnf 9 9 1\nL -0\nX", b"error: line 2: fault 4 variable\n"),
    (b"nnf 1 1 1\nL 1", b"error: fault 5 counts 1 0\n"),
];
