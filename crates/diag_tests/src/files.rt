//! Texts of files that several rows use.

/// The netlist of the rows with two faults at once.
pub const C17: &[u8] =
    b"# c17\nINPUT(1)\nINPUT(2)\nINPUT(3)\nINPUT(6)\nINPUT(7)\nOUTPUT(22)\nOUTPUT(23)\n\n10 = NAND(1, 3)\n\
        11 = NAND(3, 6)\n16 = NAND(2, 11)\n19 = NAND(11, 7)\n22 = NAND(10, 16)\n23 = NAND(16, 19)\n";

/// Two buffers in a row.
pub const CHAIN: &[u8] = b"INPUT(a)\nOUTPUT(c)\nb = BUFF(a)\nc = BUFF(b)\n";

/// Seven buffers in a row, whose names are not in the order of the row.
pub const SCRAMBLED: &[u8] =
    b"INPUT(a)\ne = BUFF(a)\nb = BUFF(e)\nf = BUFF(b)\nc = BUFF(f)\ng = BUFF(c)\nd = BUFF(g)\nh = BUFF(d)\n";

/// A netlist of one input.
pub const INPUT: &[u8] = b"INPUT(a)\n";

/// An inverter.
pub const NOT: &[u8] = b"INPUT(a)\ny = NOT(a)\n";

/// A gate with one wire at both its inputs.
pub const SAME: &[u8] = b"INPUT(a)\ny = NAND(a, a)\n";

/// An adder of two bits whose names begin with the kinds of the gates. In the order of these names its sum is 8531.
pub const BY_KIND: &[u8] =
    b"INPUT(in_c0)\nINPUT(in_a0)\nINPUT(in_b0)\nINPUT(in_a1)\nINPUT(in_b1)\nxor_half0 = XOR(in_a0, in_b0)\n\
        and_both0 = AND(in_a0, in_b0)\nand_carried0 = AND(xor_half0, in_c0)\nxor_sum0 = XOR(xor_half0, in_c0)\n\
        or_out0 = OR(and_both0, and_carried0)\nxor_half1 = XOR(in_a1, in_b1)\nand_both1 = AND(in_a1, in_b1)\n\
        and_carried1 = AND(xor_half1, or_out0)\nxor_sum1 = XOR(xor_half1, or_out0)\n\
        or_out1 = OR(and_both1, and_carried1)\n";

/// The part allows any value of its wire, and no part has the other wire.
pub const FREE: &[u8] = b"type F a\nok 0\nok 1\nend\nblock M a d\npart u F a\nend\ntop M\n";

/// A valve that is stuck shut passes nothing on, and no valve makes pressure.
pub const VALVE: &[u8] =
    b"type B a y\nok 00\nok 11\nbad 00\nbad 10\nend\nblock M a y\npart u B a y\nend\ntop M\n";

/// A chain of p and q, and a part r that allows anything. All cost the same.
pub const EQUAL: &[u8] =
    b"type P a y\nok 00\nok 11\nend\ntype Q a y\nok 00\nok 11\nend\ntype R d\nok 0\nok 1\nend\nblock M a d y\n\
        wire b\npart p P a b\npart q Q b y\npart r R d\nend\ntop M\n";

/// The same, but p costs 2, q 3 and r 7.
pub const DEAR: &[u8] =
    b"type P a y\nok 00\nok 11\ncost 2\nend\ntype Q a y\nok 00\nok 11\ncost 3\nend\ntype R d\nok 0\nok 1\ncost 7\n\
        end\nblock M a d y\nwire b\npart p P a b\npart q Q b y\npart r R d\nend\ntop M\n";

/// One of two parts is faulty.
pub const EITHER_FAULTY: &[u8] = b"nnf 3 2 2\nL -1\nL -2\nO 0 2 0 1\n";

/// Of three parts the first or the second is faulty.
pub const EITHER_OF_THREE: &[u8] = b"nnf 3 2 3\nL -1\nL -2\nO 0 2 0 1\n";

/// Both of its variables are true.
pub const BOTH_TRUE: &[u8] = b"nnf 3 2 2\nL 1\nL 2\nA 2 0 1\n";

/// True under any assignment.
pub const ANY: &[u8] = b"nnf 3 2 1\nL 1\nL -1\nO 1 2 0 1\n";

/// True under none.
pub const FALSE: &[u8] = b"nnf 1 0 0\nO 0 0\n";

/// Not decomposable.
pub const SHARED: &[u8] = b"nnf 3 2 1\nL 1\nL -1\nA 2 0 1\n";
