//! What is read of texts of one module: designs, and the first fault of each.

use crate::asserts::same;
use crate::designs::{around, assert_told, assert_written, design};
use av_net::{Design, Entry, Module};
use av_testing::texts::INCREMENT_DESIGN;
use av_vread::{design_or_fault, one_design, one_text, read_back, spelled_is_sound};
use std::alloc::Global;
use std::fmt::Write;
use std::process::Abort;
use std::test::Fail;

fn push_entry(out: &mut String, entry: &Entry) -> Result<(), Fail> {
    let point = entry.point.as_slice();
    let variable = entry.variable.as_str();
    let wire = entry.wire.as_str();
    write!(out, "{variable} {point:?} {wire} {};", entry.cycle)?;
    Ok(())
}

// The lines of a listing, one after another.
fn listed(alloc: Global, entries: &[Entry]) -> Result<String, Fail> {
    let mut lines = String::new(alloc);
    for entry in entries {
        push_entry(&mut lines, entry)?;
    }
    Ok(lines)
}

fn assert_listed(
    rt: &impl Abort,
    alloc: Global,
    entries: &[Entry],
    wanted: &str,
) -> Result<(), Fail> {
    same(rt, listed(alloc, entries)?.as_str(), wanted);
    Ok(())
}

fn assert_drives(
    rt: &impl Abort,
    alloc: Global,
    module: &Module,
    wanted: &str,
) -> Result<(), Fail> {
    let mut text = String::new(alloc);
    write!(text, "{:?}", module.drives)?;
    same(rt, text.as_str(), wanted);
    Ok(())
}

#[test]
fn laws() {
    one_design();
    design_or_fault();
    spelled_is_sound();
    read_back();
    one_text();
}

const DRIVES: &str =
    "List { items: [Drive { target: Name { text: Left(\"c0\") }, operation: Binary { left: Name(Name { text: Left(\"i0\") }), symbol: Add, right: Literal { width: Width { bits: 8 }, value: 1 } } }, Drive { target: Name { text: Left(\"o0\") }, operation: Plain(Name(Name { text: Left(\"c0\") })) }] }";

fn assert_increment(rt: &impl Abort, alloc: Global, read: &Design) -> Result<(), Fail> {
    assert_eq!(rt; read.module.wires.as_slice().len(), 1);
    assert_drives(rt, alloc, &read.module, DRIVES)?;
    let ins = read.listing.ins.as_slice();
    assert_listed(rt, alloc, ins, "X [0] i0 0;X [1] i0 1;X [2] i0 2;")?;
    let ats = read.listing.ats.as_slice();
    assert_listed(rt, alloc, ats, "Y [0] o0 0;Y [1] o0 1;Y [2] o0 2;")
}

#[test]
fn the_increment_is_read(rt: HostRuntime) -> Result<(), Fail> {
    let read = design(rt.alloc(), INCREMENT_DESIGN)?;
    assert_increment(&rt, rt.alloc(), &read)
}

// One design, as it is written and as a person may write it.
const TIDY: &str =
    "// alphav 1\n// in X (1,-2) i 0\n// at Y () o 12\nmodule m(input clk, input rst, input [0:0] i, output [0:0] o);\n  wire [0:0] w;\n  reg [0:0] r;\n  assign w = i;\n  assign o = w;\n  always @(posedge clk) if (rst) r <= 1'd0; else r <= w;\nendmodule\n";

const BY_HAND: &str =
    "// in X (1,-2) i 0\r\n\t// by hand\r\n\r\n// at Y () o 12\r\n // in its place\r\n\tmodule m // its name\r\n(input clk,input\trst,input i,\r\n output o);//\r\nwire w;reg r;assign w=i;// \u{e9}\r\n// at last\r\nassign o=w;always@(posedge clk)if(rst)r<=01'd00;else r<=w;endmodule";

#[test]
fn a_text_written_by_hand_is_the_tidy_one(rt: HostRuntime) -> Result<(), Fail> {
    assert_written(&rt, rt.alloc(), TIDY, TIDY)?;
    assert_written(&rt, rt.alloc(), BY_HAND, TIDY)
}

// Texts with what the reader answers.
const TEXTS: &[(&[u8], &str)] = &[
    (b"\0", "byte 1:1"),
    (b"module m\n \xff", "byte 2:2"),
    (b"endmodule 8'x", "byte 1:12"),
    (b"// \xff\0\n$sign", "byte 2:1"),
    (b"module module #", "byte 1:15"),
    (b"# module module", "byte 1:1"),
    (b"// in x\n#", "byte 2:1"),
    (b"// in x\nmodule", "syntax 2:7"),
    (
        b"// in x\nmodule m(input clk, input rst, input clk); endmodule",
        "listing 1",
    ),
    (
        b"module m(input clk, input rst);\n// in x\nendmodule",
        "module m",
    ),
    (b"", "syntax 1:1"),
    (b"module .m", "syntax 1:8"),
    (b"module input", "syntax 1:8"),
    (
        b"module begin(input clk, input rst); endmodule",
        "module begin",
    ),
    (
        b"module m(input clk, input rst); endmodule endmodule",
        "syntax 1:43",
    ),
    (
        b"module m(input clk, input rst, wire w); endmodule",
        "syntax 1:32",
    ),
    (
        b"module m(input clk, input rst, output o, input i); endmodule",
        "syntax 1:42",
    ),
    (
        b"module m(input clk, input rst); wire w, v; endmodule",
        "syntax 1:39",
    ),
];

#[test]
fn bytes_and_tokens(rt: HostRuntime) -> Result<(), Fail> {
    for (text, wanted) in TEXTS {
        assert_told(&rt, rt.alloc(), text, wanted)?;
    }
    Ok(())
}

// Lines before a module with the input i, the output o and the wire w, with what the reader answers.
const LISTINGS: &[(&str, &str)] = &[
    (
        "// in X (1,-2) i 0\n// at Y () o 4095\n// at Z_1 (4095,-4095,0,10) w 1\n",
        "module m",
    ),
    ("// in X () i 0\r\n// at Y () o 0\r\n", "module m"),
    ("// in X () i 0\n// in X () i 0\n", "module m"),
    ("// in module () i 0\n", "module m"),
    // no lines of the listing
    (
        "// alphav 1\n// in\n//in X\n//  at X\n // in X\n",
        "module m",
    ),
    // out of form
    ("// in \n", "listing 1"),
    ("// in X\n", "listing 1"),
    ("// in X () i\n", "listing 1"),
    ("// in X () i \n", "listing 1"),
    ("// in X () i 0 \n", "listing 1"),
    ("// in X  () i 0\n", "listing 1"),
    ("// in X ()i 0\n", "listing 1"),
    ("// in X () i 0\r\r\n", "listing 1"),
    ("// in X (1, 2) i 0\n", "listing 1"),
    ("// in X (1,2 i 0\n", "listing 1"),
    ("// in X (1,) i 0\n", "listing 1"),
    ("// in X ()) i 0\n", "listing 1"),
    ("// in X 1 i 0\n", "listing 1"),
    ("// in X (01) i 0\n", "listing 1"),
    ("// in X (-0) i 0\n", "listing 1"),
    ("// in X (+1) i 0\n", "listing 1"),
    ("// in X (4096) i 0\n", "listing 1"),
    ("// in X (-4096) i 0\n", "listing 1"),
    ("// in X (1,2,3,4,5) i 0\n", "listing 1"),
    ("// in X () i 00\n", "listing 1"),
    ("// in X () i 4096\n", "listing 1"),
    ("// in 1X () i 0\n", "listing 1"),
    ("// in _X () i 0\n", "listing 1"),
    ("// in let () i 0\n", "listing 1"),
    // on a name that is no port or no wire
    ("\n// in X () clk 0\n", "listing 2"),
    ("// in X () i 0\n// in X () o 0\n", "listing 2"),
    ("// at Y () i 0\n", "listing 1"),
    ("// at Y () p 0\n", "listing 1"),
    // out of order
    ("// at Y () o 0\n\n// in X () i 0\n", "listing 3"),
];

// These lines before the module.
fn below(alloc: Global, lines: &str) -> Result<String, Fail> {
    let mut text = String::from_str(alloc, lines)?;
    text.push_str(
        "module m(input clk, input rst, input i, output o);\nwire w;\nassign w = i;\nassign o = w;\nendmodule\n",
    )?;
    Ok(text)
}

#[test]
fn listings(rt: HostRuntime) -> Result<(), Fail> {
    let alloc = rt.alloc();
    for (lines, wanted) in LISTINGS {
        let text = below(alloc, lines)?;
        assert_told(&rt, alloc, text.as_bytes(), wanted)?;
    }
    Ok(())
}

// Ports and bodies of modules with what the reader answers.
const MODULES: &[(&str, &str, &str)] = &[
    // widths and numbers
    (
        ", output [63:0] o",
        "assign o = 64'd18446744073709551615;",
        "module m",
    ),
    (
        ", output [63:0] o",
        "assign o = 64'd18446744073709551616;",
        "syntax 2:12",
    ),
    (", output [64:0] o", "assign o = 64'd0;", "syntax 1:40"),
    (", output o", "assign o = 1'd1;", "module m"),
    (", output o", "assign o = 1'd2;", "syntax 2:12"),
    (", output o", "assign o = 0'd0;", "syntax 2:12"),
    (", output o", "assign o = 65'd0;", "syntax 2:12"),
    (
        ", output o",
        "assign o = $signed(1'd0) == $signed(1'd0);",
        "syntax 2:26",
    ),
    // registers that swap, and an output that is driven once more
    (
        ", output [3:0] o0, output [3:0] o1",
        "reg [3:0] a; reg [3:0] b; assign o0 = a; assign o1 = b; always @(posedge clk) if (rst) a <= 4'd1; else a <= b; always @(posedge clk) if (rst) b <= 4'd2; else b <= a;",
        "module m",
    ),
    (
        ", output [3:0] o0, output [3:0] o1",
        "reg [3:0] a; reg [3:0] b; assign o0 = a; assign o1 = b; always @(posedge clk) if (rst) a <= 4'd1; else a <= b; always @(posedge clk) if (rst) b <= 4'd2; else b <= a; assign o0 = b;",
        "twice o0",
    ),
    // each row of faults
    (", input clk", "", "twice clk"),
    (", output o", "wire o; assign o = 1'd0;", "twice o"),
    (", output o", "assign o = 1'd0; assign o = 1'd0;", "twice o"),
    (", output o", "assign o = x;", "name x"),
    (", output o", "assign o = clk;", "name clk"),
    (", input i", "assign i = 1'd0;", "name i"),
    (
        "",
        "wire w; always @(posedge clk) if (rst) w <= 1'd0; else w <= w;",
        "name w",
    ),
    (", output o", "", "unassigned o"),
    ("", "reg r;", "unassigned r"),
    ("", "wire w; wire v; assign w = v; assign v = w;", "order w"),
    ("", "wire w; assign w = w;", "order w"),
    (", output [1:0] o", "assign o = 1'd0;", "width o"),
    (", output [1:0] o", "assign o = 2'd0 < 2'd1;", "width o"),
    (", output o", "assign o = 2'd0 < 1'd1;", "width o"),
    (", output o", "assign o = 2'd0 ? 1'd1 : 1'd0;", "width o"),
    (
        "",
        "reg [1:0] r; always @(posedge clk) if (rst) r <= 1'd0; else r <= r;",
        "width r",
    ),
    (
        "",
        "wire w0; wire w1; assign w0 = w1; assign w1 = w0;",
        "order w0",
    ),
    // words that the grammar leaves free
    (", output case", "assign case = 1'd0;", "module m"),
    (
        ", output o",
        "wire integer; assign integer = 1'd0; assign o = integer;",
        "module m",
    ),
    // the first of two rows, whichever comes first in the text
    (
        ", output o, output o",
        "assign o = 1'd0; assign o = 1'd0;",
        "twice o",
    ),
    (", output o", "assign o = x; assign o = 1'd0;", "twice o"),
    (", output o", "assign o = 1'd0; assign o = x;", "twice o"),
    (", output p, output o", "assign o = x;", "name x"),
    (", output o, output p", "assign o = x;", "name x"),
    (", output o", "wire w; assign o = w;", "unassigned w"),
    (
        ", output o",
        "wire v; wire w; assign v = o; assign o = 1'd0;",
        "unassigned w",
    ),
    (
        ", output [1:0] o",
        "wire w; assign o = 1'd0; assign w = w;",
        "order w",
    ),
    (
        ", output [1:0] o",
        "wire w; assign w = w; assign o = 1'd0;",
        "order w",
    ),
    // the first of two names of one row
    (", output o, output p", "", "unassigned o"),
    (", output o", "assign o = y ? x : z;", "name y"),
    (
        ", output o",
        "wire o; wire o; assign o = 1'd0; assign o = 1'd0;",
        "twice o",
    ),
];

#[test]
fn rows_of_faults(rt: HostRuntime) -> Result<(), Fail> {
    let alloc = rt.alloc();
    for (ports, body, wanted) in MODULES {
        let text = around(alloc, ports, body)?;
        assert_told(&rt, alloc, text.as_bytes(), wanted)?;
    }
    Ok(())
}

#[test]
fn a_long_text(rt: HostRuntime) -> Result<(), Fail> {
    let alloc = rt.alloc();
    let blanks = vec![in alloc; b' '; 1_048_576]?;
    assert_told(&rt, alloc, &blanks, "syntax 1:1048577")
}

fn push_lines(text: &mut String) -> Result<(), Fail> {
    for number in 0..4095 {
        write!(text, "// at X ({number}) wire_{number} {number}\n")?;
    }
    Ok(())
}

fn push_wires(text: &mut String) -> Result<(), Fail> {
    for number in 0..20_000 {
        write!(text, "wire wire_{number};\n")?;
    }
    Ok(())
}

fn push_assigns(text: &mut String) -> Result<(), Fail> {
    for number in 0..20_000 {
        write!(text, "assign wire_{number} = i;\n")?;
    }
    Ok(())
}

// A design with 20,000 wires, of which 4,095 are listed.
fn long(alloc: Global) -> Result<String, Fail> {
    let mut text = String::from_str(alloc, "// alphav 1\n")?;
    push_lines(&mut text)?;
    text.push_str("module m(input clk, input rst, input i);\n")?;
    push_wires(&mut text)?;
    push_assigns(&mut text)?;
    text.push_str("endmodule\n")?;
    Ok(text)
}

// How many drives and listed points are read.
fn counts(alloc: Global, text: &str) -> Result<[usize; 2], Fail> {
    let read = design(alloc, text)?;
    Ok([
        read.module.drives.as_slice().len(),
        read.listing.ats.as_slice().len(),
    ])
}

#[test]
fn many_names(rt: HostRuntime) -> Result<(), Fail> {
    let text = long(rt.alloc())?;
    assert_eq!(rt; counts(rt.alloc(), text.as_str())?, [20_000, 4_095]);
    Ok(())
}
