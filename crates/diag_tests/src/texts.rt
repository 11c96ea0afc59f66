//! Texts of graphs that a run writes, read back.
use crate::files::{CHAIN, DEAR, EQUAL, FREE, INPUT, NOT, VALVE};
use crate::rows::{Row, answer};
use crate::running::{NOTHING_FAILS, run};
use nnf_text::read_nnf;
use node_store::Graph;
use state_rules::NodeKind;
use std::alloc::Global;
use std::process::Abort;
use std::test::Fail;

// A run, and what it writes before the text of a graph, which comes last. The graph's variables, the most nodes that it has, the bits for
// the variables that make it true (the first variable has the lowest), and the end of the text. A part's bit is 1 if it is ok.
struct Written {
    name: &'static str,
    text: &'static [u8],
    words: &'static [&'static str],
    script: &'static [u8],
    before: &'static [u8],
    vars: u32,
    nodes: u32,
    allowed: &'static [u32],
    end: &'static [u8],
}

// The sums are 7 for the inverter and the buffer, 12 for the chain and an XOR, 10 for the other gates of two inputs, 1 without clauses, and
// 8 for the valve. A compiled graph has at most three nodes for each of the sum, two for each variable, and two. The text of what a session
// allows has one more for each part that is held, and one. The text of the diagnoses has at most as many nodes as the graph has nodes and
// edges, two for each part, and one.
static WRITTEN: [Written; 18] = [
    // a faulty inverter allows each row, and one that is ok those in which its wires differ
    Written {
        name: "f.bench",
        text: NOT,
        words: &["compile", "f.bench"],
        script: b"",
        before: b"",
        vars: 3,
        nodes: 29,
        allowed: &[0b000, 0b010, 0b011, 0b100, 0b101, 0b110],
        end: b"\n",
    },
    Written {
        name: "f.bench",
        text: NOT,
        words: &["compile", "f.bench", "--budget", "7"],
        script: b"",
        before: b"",
        vars: 3,
        nodes: 29,
        allowed: &[0b000, 0b010, 0b011, 0b100, 0b101, 0b110],
        end: b"\n",
    },
    Written {
        name: "f.bench",
        text: INPUT,
        words: &["compile", "f.bench"],
        script: b"",
        before: b"",
        vars: 1,
        nodes: 7,
        allowed: &[0, 1],
        end: b"\n",
    },
    Written {
        name: "f.bench",
        text: CHAIN,
        words: &["serve", "f.bench"],
        script: b"open S\ndnnf S\n",
        before: b"ready 2 3\nS open\nS dnnf\n",
        vars: 2,
        nodes: 49,
        allowed: &[0b00, 0b01, 0b10, 0b11],
        end: b"\n",
    },
    Written {
        name: "f.bench",
        text: CHAIN,
        words: &["serve", "f.bench"],
        script: b"open S\nsee S a=0\nsee S c=1\ndnnf S\n",
        before: b"ready 2 3\nS open\nS ok\nS ok\nS dnnf\n",
        vars: 2,
        nodes: 49,
        allowed: &[0b00, 0b01, 0b10],
        end: b"\n",
    },
    Written {
        name: "f.bench",
        text: CHAIN,
        words: &["serve", "f.bench"],
        script: b"open S\nsee S a=0\nsee S c=1\nhold S b=ok\ndnnf S\n",
        before: b"ready 2 3\nS open\nS ok\nS ok\nS ok\nS dnnf\n",
        vars: 2,
        nodes: 50,
        allowed: &[0b01],
        end: b"\n",
    },
    Written {
        name: "f.dev",
        text: FREE,
        words: &["serve", "f.dev"],
        script: b"open S\nhold S u=bad\ndnnf S\n",
        before: b"ready 1 2\nS open\nS ok\nS dnnf\n",
        vars: 1,
        nodes: 13,
        allowed: &[0],
        end: b"\n",
    },
    Written {
        name: "f.dev",
        text: VALVE,
        words: &["serve", "f.dev"],
        script: b"open S\nsee S a=0\nsee S y=1\ndnnf S\n",
        before: b"ready 1 2\nS open\nS ok\nS ok\nS dnnf\n",
        vars: 1,
        nodes: 33,
        allowed: &[],
        end: b"\n",
    },
    // only the diagnoses, and not both buffers faulty; a graph within a sum of 12 has at most 48 nodes and 78 edges
    Written {
        name: "f.bench",
        text: CHAIN,
        words: &["serve", "f.bench", "--least"],
        script: b"open S\nsee S a=0\nsee S c=1\nleastnnf S\n",
        before: b"ready 2 3\nS open\nS ok\nS ok\nS leastnnf\n",
        vars: 2,
        nodes: 131,
        allowed: &[0b01, 0b10],
        end: b"\n",
    },
    // if no state agrees, the text of the diagnoses ends with an Or node without children
    Written {
        name: "f.dev",
        text: VALVE,
        words: &["serve", "f.dev", "--least"],
        script: b"open S\nsee S a=0\nsee S y=1\nleastnnf S\n",
        before: b"ready 1 2\nS open\nS ok\nS ok\nS leastnnf\n",
        vars: 1,
        nodes: 89,
        allowed: &[],
        end: b"\nO 0 0\n",
    },
    // one of two parts is faulty: with a third that is held to be faulty; the cheaper one alone; and the one that is held to be faulty. A
    // sum of 12 over 7 variables allows 52 nodes and 78 edges.
    Written {
        name: "f.dev",
        text: EQUAL,
        words: &["serve", "f.dev", "--least"],
        script: b"open S\nsee S a=0\nsee S y=1\nhold S r=bad\nleastnnf S\n",
        before: b"ready 3 4\nS open\nS ok\nS ok\nS ok\nS leastnnf\n",
        vars: 3,
        nodes: 137,
        allowed: &[0b001, 0b010],
        end: b"\n",
    },
    Written {
        name: "f.dev",
        text: DEAR,
        words: &["serve", "f.dev", "--least"],
        script: b"open S\nsee S a=0\nsee S y=1\nleastnnf S\n",
        before: b"ready 3 4\nS open\nS ok\nS ok\nS leastnnf\n",
        vars: 3,
        nodes: 137,
        allowed: &[0b110],
        end: b"\n",
    },
    Written {
        name: "f.dev",
        text: EQUAL,
        words: &["serve", "f.dev", "--least"],
        script: b"open S\nsee S a=0\nsee S y=1\nhold S q=bad\nleastnnf S\n",
        before: b"ready 3 4\nS open\nS ok\nS ok\nS ok\nS leastnnf\n",
        vars: 3,
        nodes: 137,
        allowed: &[0b101],
        end: b"\n",
    },
    // a faulty gate allows each row, and one that is ok those in which its output is right
    Written {
        name: "f.bench",
        text: b"INPUT(a)\nINPUT(b)\ny = AND(a, b)\n",
        words: &["compile", "f.bench"],
        script: b"",
        before: b"",
        vars: 4,
        nodes: 40,
        allowed: &[
            0b0000, 0b0001, 0b0010, 0b0011, 0b0100, 0b0101, 0b0110, 0b1000, 0b1010, 0b1100, 0b1110,
            0b1111,
        ],
        end: b"\n",
    },
    Written {
        name: "f.bench",
        text: b"INPUT(a)\nINPUT(b)\ny = OR(a, b)\n",
        words: &["compile", "f.bench"],
        script: b"",
        before: b"",
        vars: 4,
        nodes: 40,
        allowed: &[
            0b0000, 0b0001, 0b0010, 0b0100, 0b0110, 0b1000, 0b1010, 0b1011, 0b1100, 0b1101, 0b1110,
            0b1111,
        ],
        end: b"\n",
    },
    Written {
        name: "f.bench",
        text: b"INPUT(a)\nINPUT(b)\ny = NOR(a, b)\n",
        words: &["compile", "f.bench"],
        script: b"",
        before: b"",
        vars: 4,
        nodes: 40,
        allowed: &[
            0b0000, 0b0010, 0b0011, 0b0100, 0b0101, 0b0110, 0b0111, 0b1000, 0b1001, 0b1010, 0b1100,
            0b1110,
        ],
        end: b"\n",
    },
    Written {
        name: "f.bench",
        text: b"INPUT(a)\nINPUT(b)\ny = XOR(a, b)\n",
        words: &["compile", "f.bench"],
        script: b"",
        before: b"",
        vars: 4,
        nodes: 46,
        allowed: &[
            0b0000, 0b0001, 0b0010, 0b0100, 0b0110, 0b0111, 0b1000, 0b1010, 0b1011, 0b1100, 0b1101,
            0b1110,
        ],
        end: b"\n",
    },
    Written {
        name: "f.bench",
        text: b"INPUT(a)\ny = BUFF(a)\n",
        words: &["compile", "f.bench"],
        script: b"",
        before: b"",
        vars: 3,
        nodes: 29,
        allowed: &[0b000, 0b001, 0b010, 0b100, 0b110, 0b111],
        end: b"\n",
    },
];

// The bit of a variable. The first variable has the lowest bit.
fn bit_of(bits: u32, var: u32) -> bool {
    let mut rest = bits;
    for _ in 1..var {
        rest /= 2;
    }
    rest % 2 == 1
}

// Whether the root of a graph is true under these bits.
fn is_true(alloc: Global, graph: &Graph, bits: u32) -> Result<bool, Fail> {
    let mut values = Vec::new(alloc);
    for node in 0..graph.len() {
        let mut all = true;
        let mut any = false;
        for child in graph.kids(node) {
            let value = *values
                .get(*child as usize)
                .ok_or("a child that is not there")?;
            all = all && value;
            any = any || value;
        }
        values.push(match graph.what(node) {
            NodeKind::Literal { var, positive } => bit_of(bits, var) == positive,
            NodeKind::And => all,
            NodeKind::Or => any,
        })?;
    }
    Ok(*values.last().ok_or("no node")?)
}

fn allows(rt: &impl Abort, alloc: Global, row: &Written) -> Result<(), Fail> {
    let words = row.words;
    let ran = run(alloc, row.name, row.text, words, row.script, &NOTHING_FAILS)?;
    assert_eq!(rt; ran.status, 0, "{words:?}");
    assert!(rt; ran.out.as_slice().ends_with(row.end), "{words:?}");
    let text = ran.out.as_slice().strip_prefix(row.before);
    let text = text.ok_or("another reply before the text")?;
    assert!(rt; text.len() <= 8192);
    let (graph, vars) = read_nnf(alloc, text)?;
    assert_eq!(rt; vars, row.vars, "{words:?}");
    assert!(rt; graph.len() <= row.nodes, "{words:?}");
    for bits in 0..1u32 << row.vars.min(8) {
        let is_allowed = row.allowed.contains(&bits);
        assert_eq!(rt;
            is_true(alloc, &graph, bits)?,
            is_allowed,
            "{words:?} {bits}"
        );
    }
    Ok(())
}

#[test]
fn writes_what_is_allowed(rt: HostRuntime) -> Result<(), Fail> {
    for row in &WRITTEN {
        allows(&rt, rt.alloc(), row)?;
    }
    Ok(())
}

// A netlist that is compiled, and a run over the graph: its words, its script, and what it writes.
static ASKED: [(&[u8], [&str; 3], &[u8], &[u8]); 2] = [
    // The parts b and c of the chain are the variables 1 and 2, and its wires a, b and c the next three.
    (
        CHAIN,
        ["ask", "f.nnf", "2"],
        b"open S\nsee S 00003=0\nsee S 00005=1\nlist S 5\n",
        b"ready 2 3\nS open\nS ok\nS ok\nS diag 00001\nS diag 00002\nS end\n",
    ),
    // The gate is variable 1, its five inputs and its output come next, and a gate of five inputs has three inner variables.
    (
        b"INPUT(a)\nINPUT(b)\nINPUT(c)\nINPUT(d)\nINPUT(e)\ny = AND(a, b, c, d, e)\n",
        ["ask", "f.nnf", "1"],
        b"open S\nsee S 00002=1\nsee S 00003=1\nsee S 00004=1\nsee S 00005=1\nprobe S 00007\nsee S 00006=1\nprobe S 00007\n",
        b"ready 1 9\nS open\nS ok\nS ok\nS ok\nS ok\nS probe 00007 0 0\nS ok\nS probe 00007 1 0\n",
    ),
];

#[test]
fn asks_what_was_compiled(rt: HostRuntime) -> Result<(), Fail> {
    for asked in &ASKED {
        let (text, words, script, out) = *asked;
        let compiled = run(
            rt.alloc(),
            "f.bench",
            text,
            &["compile", "f.bench"],
            b"",
            &NOTHING_FAILS,
        )?;
        let row = Row {
            name: "f.nnf",
            text: compiled.out.as_slice(),
            words: &words,
            script,
            out,
            status: 0,
        };
        answer(&rt, rt.alloc(), &row, &NOTHING_FAILS)?;
    }
    Ok(())
}
