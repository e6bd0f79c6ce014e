//! The designs of `emit`, clocked by `sim` with the words of their data at the listed ports and cycles, and with words of
//! ones on the other ports.

use crate::answers::{Outcome, Row, answered, assert_rows, extend, joined};
use crate::tables::DIAGONAL;
use av_base::List;
use av_cli::Status;
use av_testing::texts::{CONVOLUTION, FORWARD, LEAST, MATRIX_PRODUCT, NO_POINT, ROW_SUMS};
use std::alloc::Global;
use std::test::Fail;

// The greatest word of width 8.
const IDLE: &str = "255";

const PORTS: &[&str] = &["i0", "i1", "i2", "i3"];

const NUMBERS: &[&str] = &["0", "1", "2", "3", "4", "5", "6"];

// A text with its words, the words of its input ports by cycle, and lines of which each shows a word of an output port.
#[derive(Clone, Copy)]
struct Clocked<'a> {
    words: &'a [&'a str],
    text: &'a str,
    cycles: &'a [&'a [&'a str]],
    shown: &'a [(&'a str, &'a str)],
}

const OF_DIAGONAL: Clocked<'static> = Clocked {
    words: &["emit", "--width", "4"],
    text: DIAGONAL,
    cycles: &[&["1", "3", "15"], &["2", "15", "4"]],
    shown: &[("0", "o0=1"), ("1", "o0=2"), ("0", "o1=3"), ("1", "o1=5")],
};

const OF_MATRIX_PRODUCT: Clocked<'static> = Clocked {
    words: &["emit", "--width", "8", "N=2"],
    text: MATRIX_PRODUCT,
    cycles: &[
        &["1", IDLE, "5", IDLE],
        &["2", "3", "7", "6"],
        &[IDLE, "4", IDLE, "8"],
        &[IDLE, IDLE, IDLE, IDLE],
        &[IDLE, IDLE, IDLE, IDLE],
    ],
    shown: &[
        ("3", "o0=19"),
        ("4", "o0=22"),
        ("3", "o1=43"),
        ("4", "o1=50"),
    ],
};

const OF_CONVOLUTION: Clocked<'static> = Clocked {
    words: &["emit", "--width", "8"],
    text: CONVOLUTION,
    cycles: &[
        &["1", "3", IDLE, IDLE],
        &["2", "2", "4", IDLE],
        &["3", "1", IDLE, "5"],
        &[IDLE, IDLE, IDLE, IDLE],
        &[IDLE, IDLE, IDLE, IDLE],
        &[IDLE, IDLE, IDLE, IDLE],
    ],
    shown: &[("3", "o0=10"), ("4", "o0=16"), ("5", "o0=22")],
};

const OF_FORWARD: Clocked<'static> = Clocked {
    words: &["emit", "--width", "8", "N=3"],
    text: FORWARD,
    cycles: &[
        &["5", IDLE, IDLE],
        &[IDLE, "2", IDLE],
        &["17", IDLE, "1"],
        &[IDLE, IDLE, "3"],
        &["30", IDLE, IDLE],
    ],
    shown: &[("0", "o0=5"), ("2", "o0=7"), ("4", "o0=4")],
};

const OF_ROW_SUMS: Clocked<'static> = Clocked {
    words: &["emit", "--width", "8"],
    text: ROW_SUMS,
    cycles: &[
        &["1", "4"],
        &["2", "5"],
        &["3", "6"],
        &[IDLE, IDLE],
        &[IDLE, IDLE],
    ],
    shown: &[("3", "o0=6"), ("4", "o0=15")],
};

// A fold of no words gives the greatest signed word.
const OF_LEAST: Clocked<'static> = Clocked {
    words: &["emit", "--width", "8"],
    text: LEAST,
    cycles: &[&["5", IDLE], &[IDLE, IDLE], &[IDLE, "250"], &[IDLE, IDLE]],
    shown: &[("1", "o0=127"), ("2", "o0=5"), ("3", "o0=250")],
};

const DIAGONAL_TEXT: &str = "// alphav 2
// in A (0,0) i0 0
// in A (0,1) i0 1
// in A (1,0) i1 0
// in A (1,1) i2 1
// at D (0,0) o0 0
// at D (0,1) o0 1
// at D (1,0) o1 0
// at D (1,1) o1 1
module k0(input [3:0] i0, output [3:0] v);
  assign v = i0;
endmodule
module k1(input [11:0] cyc, input [3:0] i0, input [11:0] b0, input [11:0] b1, input [3:0] t0, input [3:0] i1, output [3:0] v);
  wire [3:0] w0;
  wire [0:0] w1;
  wire [0:0] w2;
  wire [0:0] w3;
  assign w0 = t0 + i1;
  assign w1 = cyc >= b0;
  assign w2 = cyc <= b1;
  assign w3 = w1 & w2;
  assign v = w3 ? i0 : w0;
endmodule
module array(input clk, input rst, input [3:0] i0, input [3:0] i1, input [3:0] i2, output [3:0] o0, output [3:0] o1);
  wire [3:0] c0;
  wire [3:0] c1;
  wire [11:0] cyc_next;
  reg [3:0] r0_0;
  reg [11:0] cyc;
  k0 u0 (.i0(i0), .v(c0));
  k1 u1 (.cyc(cyc), .i0(i1), .b0(12'd0), .b1(12'd0), .t0(r0_0), .i1(i2), .v(c1));
  assign o0 = c0;
  assign o1 = c1;
  assign cyc_next = cyc + 12'd1;
  always @(posedge clk) if (rst) r0_0 <= 4'd0; else r0_0 <= c0;
  always @(posedge clk) if (rst) cyc <= 12'd0; else cyc <= cyc_next;
endmodule
";

const EMPTY_TEXT: &str = "// alphav 2
module array(input clk, input rst);
endmodule
";

const WIDTH_4: &[&str] = &["emit", "--width=4"];

const TEXTS: &[Row] = &[
    (WIDTH_4, DIAGONAL, Status::Done, DIAGONAL_TEXT),
    (WIDTH_4, NO_POINT, Status::Done, EMPTY_TEXT),
];

#[test]
fn texts_are_these(rt: HostRuntime) -> Result<(), Fail> {
    assert_rows(&rt, rt.alloc(), TEXTS)
}

const CLOCKED: &[Clocked<'static>] = &[
    OF_DIAGONAL,
    OF_MATRIX_PRODUCT,
    OF_CONVOLUTION,
    OF_FORWARD,
    OF_ROW_SUMS,
    OF_LEAST,
];

#[test]
fn designs_show_their_points_whatever_stands_on_idle_ports(rt: HostRuntime) -> Result<(), Fail> {
    let alloc = rt.alloc();
    for it in CLOCKED {
        let answer = stimulated(alloc, it)?;
        assert_eq!(rt; answer.status, Status::Done, "{}", it.text);
        let lines = str::from_utf8(answer.sink.held()).unwrap_or("");
        assert!(rt;
            it.shown
                .iter()
                .all(|(cycle, word)| shows(lines, cycle, word)),
            "{}",
            it.text
        );
    }
    Ok(())
}

// The design that was emitted, and behind it the words of each cycle as a stimulus.
fn with_stimulus(alloc: Global, it: &Clocked<'_>, design: &[u8]) -> Result<List<u8>, Fail> {
    let mut text = List::new(alloc);
    extend(&mut text, design)?;
    extend(&mut text, b"%%\ncycles ")?;
    let count = NUMBERS.get(it.cycles.len()).unwrap_or(&"0");
    extend(&mut text, count.as_bytes())?;
    extend(&mut text, b"\n")?;
    for (cycle, words) in NUMBERS.iter().zip(it.cycles) {
        put_cycle(alloc, &mut text, cycle, words)?;
    }
    Ok(text)
}

// Emits a design, and clocks it.
fn stimulated(alloc: Global, it: &Clocked<'_>) -> Result<Outcome, Fail> {
    let emitted = answered(alloc, it.words, joined(alloc, &[it.text])?, 65536)?;
    let text = with_stimulus(alloc, it, emitted.sink.held())?;
    answered(alloc, &["sim"], text, 4096)
}

// The lines of a stimulus for one cycle.
fn put_cycle(alloc: Global, text: &mut List<u8>, cycle: &str, words: &[&str]) -> Result<(), Fail> {
    for (port, word) in PORTS.iter().zip(words) {
        let line = format!(in alloc; "at {cycle} {port} {word}\n")?;
        extend(text, line.as_bytes())?;
    }
    Ok(())
}

// Whether the line of the cycle has the word.
fn shows(lines: &str, cycle: &str, word: &str) -> bool {
    lines.lines().any(|line| {
        let mut parts = line.split(' ');
        parts.next() == Some(cycle) && parts.any(|part| part == word)
    })
}
