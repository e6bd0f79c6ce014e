//! The answers of `wave` and `unwave`.

use crate::answers::{
    Row, answered, assert_answer, assert_end, assert_front, assert_parts, assert_read_fault,
    assert_rows, extend, joined, repeated,
};
use crate::texts::{INCREMENT, TOO_WIDE, USAGE, WIDENED};
use av_base::List;
use av_cli::Status;
use std::alloc::Global;
use std::fmt::Write;
use std::process::Abort;
use std::test::Fail;

const WAVE: &[&str] = &["wave", "--width", "8"];

const DATA: &str = "%%\nX (0) = 0\nX (1) = 254\nX (2) = 255\n";

const RUN: &str = "0 i0=0 o0=1\n1 i0=254 o0=255\n2 i0=255 o0=0\n";

// The dump of the increment's run on these data: the number of each line, and the line without its line feed.
const DUMP: &[(usize, &str)] = &[
    (1, "$timescale 1ns $end"),
    (2, "$scope module array $end"),
    (3, "$var wire 8 ! i0 $end"),
    (4, "$var wire 8 \" o0 $end"),
    (5, "$upscope $end"),
    (6, "$enddefinitions $end"),
    (7, "#0"),
    (8, "b0 !"),
    (9, "b1 \""),
    (10, "#1"),
    (11, "b11111110 !"),
    (12, "b11111111 \""),
    (13, "#2"),
    (14, "b11111111 !"),
    (15, "b0 \""),
    (16, "#3"),
];

// The dump, with these pieces in place of the line with a number, or whole where no line has it.
fn dump_with(alloc: Global, replaced: usize, pieces: &[&str]) -> Result<List<u8>, Fail> {
    let mut bytes = List::new(alloc);
    for (number, line) in DUMP {
        if *number == replaced {
            extend_by(&mut bytes, pieces)?;
        } else {
            extend_by(&mut bytes, &[line, "\n"])?;
        }
    }
    Ok(bytes)
}

fn extend_by(bytes: &mut List<u8>, pieces: &[&str]) -> Result<(), Fail> {
    for piece in pieces {
        extend(bytes, piece.as_bytes())?;
    }
    Ok(())
}

#[test]
fn a_run_is_told_by_its_changes(rt: HostRuntime) -> Result<(), Fail> {
    let alloc = rt.alloc();
    let input = joined(alloc, &[INCREMENT, DATA])?;
    let answer = answered(alloc, WAVE, input, 4096)?;
    let dump = dump_with(alloc, 0, &[])?;
    assert_eq!(rt; answer.status, Status::Done);
    assert_eq!(rt; answer.sink.held(), dump.as_slice());
    Ok(())
}

// The words, what stands behind the text of the increment, and the dump: of ports of one bit, and of 64.
const NARROW_AND_WIDE: &[(&[&str], &str, &str)] = &[
    (
        &["wave", "--width=1"],
        "%%\nX (0) = 0\nX (1) = 1\nX (2) = 1\n",
        "$timescale 1ns $end
$scope module array $end
$var wire 1 ! i0 $end
$var wire 1 \" o0 $end
$upscope $end
$enddefinitions $end
#0
0!
1\"
#1
1!
0\"
#2
#3
",
    ),
    (
        &["wave", "--width=64"],
        "%%\nX (0) = 0\nX (1) = -1\nX (2) = 5\n",
        "$timescale 1ns $end
$scope module array $end
$var wire 64 ! i0 $end
$var wire 64 \" o0 $end
$upscope $end
$enddefinitions $end
#0
b0 !
b1 \"
#1
b1111111111111111111111111111111111111111111111111111111111111111 !
b0 \"
#2
b101 !
b110 \"
#3
",
    ),
];

#[test]
fn a_run_of_narrow_and_of_wide_ports(rt: HostRuntime) -> Result<(), Fail> {
    let alloc = rt.alloc();
    for (words, data, out) in NARROW_AND_WIDE {
        let answer = answered(alloc, words, joined(alloc, &[INCREMENT, data])?, 4096)?;
        assert_answer(&rt, &answer, Status::Done, out, data);
    }
    Ok(())
}

// What stands behind the text of the increment from 8 bits to 16, and the dump: a port has its variable's width.
const WIDENED_DATA: &str = "%%\nX (0) = 255\nX (1) = 127\nX (2) = 128\n";

const WIDENED_DUMP: &str = "$timescale 1ns $end
$scope module array $end
$var wire 8 ! i0 $end
$var wire 16 \" o0 $end
$upscope $end
$enddefinitions $end
#0
b11111111 !
b0 \"
#1
b1111111 !
b10000000 \"
#2
b10000000 !
b1111111110000001 \"
#3
";

#[test]
fn a_run_of_ports_of_two_widths(rt: HostRuntime) -> Result<(), Fail> {
    let alloc = rt.alloc();
    assert_parts(
        &rt,
        alloc,
        &["wave"],
        &[WIDENED, WIDENED_DATA],
        Status::Done,
        WIDENED_DUMP,
        WIDENED,
    )?;
    let refusal = "refused: width X 1:13\n";
    assert_parts(
        &rt,
        alloc,
        &["wave"],
        &[TOO_WIDE, WIDENED_DATA],
        Status::Refused,
        refusal,
        TOO_WIDE,
    )?;
    Ok(())
}

// What `unwave` answers to the dump with these pieces in place of the line with this number.
fn assert_unwave(
    rt: &impl Abort,
    alloc: Global,
    number: usize,
    pieces: &[&str],
    out: &str,
) -> Result<(), Fail> {
    let input = dump_with(alloc, number, pieces)?;
    let answer = answered(alloc, &["unwave"], input, 4096)?;
    let status = if out.starts_with("refused: ") {
        Status::Refused
    } else {
        Status::Done
    };
    assert_answer(rt, &answer, status, out, out);
    Ok(())
}

// The number of a line, what stands in its place, and the output.
const LINES: &[(usize, &str, &str)] = &[
    (0, "", RUN),
    // each line left out: without a change there is still a dump, of another run
    (1, "", "refused: wave syntax 1\n"),
    (2, "", "refused: wave syntax 2\n"),
    (3, "", "refused: wave syntax 3\n"),
    (4, "", "refused: wave syntax 8\n"),
    (5, "", "refused: wave syntax 5\n"),
    (6, "", "refused: wave syntax 6\n"),
    (7, "", "refused: wave syntax 7\n"),
    (8, "", "refused: wave syntax 8\n"),
    (9, "", "refused: wave syntax 9\n"),
    (10, "", "refused: wave syntax 10\n"),
    (11, "", "0 i0=0 o0=1\n1 i0=0 o0=255\n2 i0=255 o0=0\n"),
    (12, "", "0 i0=0 o0=1\n1 i0=254 o0=1\n2 i0=255 o0=0\n"),
    (13, "", "refused: wave syntax 13\n"),
    (14, "", "0 i0=0 o0=1\n1 i0=254 o0=255\n2 i0=254 o0=0\n"),
    (15, "", "0 i0=0 o0=1\n1 i0=254 o0=255\n2 i0=255 o0=255\n"),
    (16, "", "refused: wave syntax 16\n"),
    // leading zeros
    (3, "$var wire 08 ! i0 $end\n", "refused: wave syntax 3\n"),
    (7, "#00\n", "refused: wave syntax 7\n"),
    (8, "b00 !\n", "refused: wave syntax 8\n"),
    (9, "b01 \"\n", "refused: wave syntax 9\n"),
    (10, "#01\n", "refused: wave syntax 10\n"),
    (11, "b011111110 !\n", "refused: wave syntax 11\n"),
    (16, "#03\n", "refused: wave syntax 16\n"),
    // letters in upper case, which a name may have
    (1, "$TIMESCALE 1ns $end\n", "refused: wave syntax 1\n"),
    (1, "$timescale 1NS $end\n", "refused: wave syntax 1\n"),
    (2, "$scope Module array $end\n", "refused: wave syntax 2\n"),
    (3, "$var WIRE 8 ! i0 $end\n", "refused: wave syntax 3\n"),
    (5, "$upScope $end\n", "refused: wave syntax 5\n"),
    (6, "$enddefinitions $END\n", "refused: wave syntax 6\n"),
    (8, "B0 !\n", "refused: wave syntax 8\n"),
    (
        3,
        "$var wire 8 ! I0 $end\n",
        "0 I0=0 o0=1\n1 I0=254 o0=255\n2 I0=255 o0=0\n",
    ),
    // a code that is not its port's
    (3, "$var wire 8 \" i0 $end\n", "refused: wave syntax 3\n"),
    (4, "$var wire 8 ! o0 $end\n", "refused: wave syntax 4\n"),
    (4, "$var wire 8 !\" o0 $end\n", "refused: wave syntax 4\n"),
    (8, "b0 \"\n", "refused: wave syntax 8\n"),
    (9, "b1 !\n", "refused: wave syntax 9\n"),
    (9, "b1 #\n", "refused: wave syntax 9\n"),
    (9, "b1 \"!\n", "refused: wave syntax 9\n"),
    (12, "b11111111 #\n", "refused: wave syntax 12\n"),
    // a value that the port had before
    (11, "b0 !\n", "refused: wave syntax 11\n"),
    (12, "b1 \"\n", "refused: wave syntax 12\n"),
    (15, "b11111111 \"\n", "refused: wave syntax 15\n"),
    // changes out of order, and one more
    (8, "b1 \"\nb0 !\n", "refused: wave syntax 8\n"),
    (
        11,
        "b11111111 \"\nb11111110 !\n",
        "refused: wave syntax 12\n",
    ),
    (9, "b1 \"\nb10 \"\n", "refused: wave syntax 10\n"),
    // a cycle left out, or told again
    (7, "#1\n", "refused: wave syntax 7\n"),
    (10, "#2\n", "refused: wave syntax 10\n"),
    (13, "#3\n", "refused: wave syntax 13\n"),
    (13, "#1\n", "refused: wave syntax 13\n"),
    (16, "#4\n", "refused: wave syntax 16\n"),
    // a value that does not fit its port, or has another form
    (11, "b111111110 !\n", "refused: wave syntax 11\n"),
    (11, "b11111112 !\n", "refused: wave syntax 11\n"),
    (11, "bx !\n", "refused: wave syntax 11\n"),
    (11, "b !\n", "refused: wave syntax 11\n"),
    (11, "b11111110!\n", "refused: wave syntax 11\n"),
    (11, "1!\n", "refused: wave syntax 11\n"),
    // names
    (2, "$scope module wire $end\n", "refused: wave syntax 2\n"),
    (2, "$scope module i0 $end\n", RUN),
    (3, "$var wire 8 ! 0 $end\n", "refused: wave syntax 3\n"),
    (4, "$var wire 8 \" i0 $end\n", "refused: wave syntax 4\n"),
    // widths
    (3, "$var wire 0 ! i0 $end\n", "refused: wave syntax 3\n"),
    (3, "$var wire 65 ! i0 $end\n", "refused: wave syntax 3\n"),
    (3, "$var wire 7 ! i0 $end\n", "refused: wave syntax 11\n"),
    (3, "$var wire 1 ! i0 $end\n", "refused: wave syntax 8\n"),
    // what other dumps have
    (
        1,
        "$date today $end\n$timescale 1ns $end\n",
        "refused: wave syntax 1\n",
    ),
    (1, "$timescale 1ps $end\n", "refused: wave syntax 1\n"),
    (3, "$var reg 8 ! i0 $end\n", "refused: wave syntax 3\n"),
    (
        3,
        "$var wire 8 ! i0 [7:0] $end\n",
        "refused: wave syntax 3\n",
    ),
    (8, "$dumpvars\nb0 !\n", "refused: wave syntax 8\n"),
    // another end
    (16, "#3", "refused: wave syntax 16\n"),
    (16, "#3\n\n", "refused: wave syntax 17\n"),
    (16, "#3\n#3\n", "refused: wave syntax 17\n"),
    (16, "#3\nb1 !\n", "refused: wave syntax 18\n"),
    (
        16,
        "#3\n#4\n",
        "0 i0=0 o0=1\n1 i0=254 o0=255\n2 i0=255 o0=0\n3 i0=255 o0=0\n",
    ),
];

#[test]
fn a_dump_is_refused_at_its_first_faulty_line(rt: HostRuntime) -> Result<(), Fail> {
    for (number, piece, out) in LINES {
        assert_unwave(&rt, rt.alloc(), *number, &[piece], out)?;
    }
    Ok(())
}

// The dump is refused at a line, with these pieces in place of the one with this number.
fn assert_refused(
    rt: &impl Abort,
    alloc: Global,
    number: usize,
    pieces: &[&str],
    line: usize,
) -> Result<(), Fail> {
    let out = format!(in alloc; "refused: wave syntax {line}\n")?;
    assert_unwave(rt, alloc, number, pieces, out.as_str())
}

#[test]
fn each_line_is_told_once_and_with_no_byte_more(rt: HostRuntime) -> Result<(), Fail> {
    let alloc = rt.alloc();
    for (number, line) in DUMP {
        let number = *number;
        let next = number.saturating_add(1);
        assert_refused(&rt, alloc, number, &[line, "\n", line, "\n"], next)?;
        assert_refused(&rt, alloc, number, &[line, " \n"], number)?;
        assert_refused(&rt, alloc, number, &[" ", line, "\n"], number)?;
        assert_refused(&rt, alloc, number, &[line, "\r\n"], number)?;
    }
    Ok(())
}

const ROWS: &[Row] = &[
    (&["unwave"], "", Status::Refused, "refused: wave syntax 1\n"),
    (
        &["unwave", "--"],
        "\n",
        Status::Refused,
        "refused: wave syntax 1\n",
    ),
    (&["unwave", "--width", "8"], "", Status::Words, USAGE),
    (&["unwave", "--box=1"], "", Status::Words, USAGE),
    (
        &["unwave"],
        WIDENED_DUMP,
        Status::Done,
        "0 i0=255 o0=0\n1 i0=127 o0=128\n2 i0=128 o0=65409\n",
    ),
    (&["unwave", "N=3"], "", Status::Words, USAGE),
    (&["unwave", "--", "--"], "", Status::Words, USAGE),
    (&["Unwave"], "", Status::Words, USAGE),
    (&["wave"], INCREMENT, Status::Refused, "refused: no mark\n"),
    (&["wave"], TOO_WIDE, Status::Refused, "refused: no mark\n"),
    (
        &["wave"],
        "system (\n%%\n?\n",
        Status::Refused,
        "refused: syntax 1:8\n",
    ),
    (
        &["wave"],
        "system t () returns (Y : {i|-1<=i<=4095} of integer); let Y = 1; tel;\n%%\n?\n",
        Status::Refused,
        "refused: cycles 4097\n",
    ),
    (&["wave", "--width", "65"], INCREMENT, Status::Words, USAGE),
    (&["wave", "N"], INCREMENT, Status::Words, USAGE),
    (
        &["wave"],
        "system t () returns (Y : {i|1<=i<=0} of integer); let Y = 1; tel;\n%%\n",
        Status::Done,
        "$timescale 1ns $end\n$scope module array $end\n$upscope $end\n$enddefinitions $end\n#0\n",
    ),
];

#[test]
fn words_and_inputs_of_dumps(rt: HostRuntime) -> Result<(), Fail> {
    assert_rows(&rt, rt.alloc(), ROWS)
}

// What stands behind the text of the increment, and the refusal of `wave`.
const DATA_ROWS: &[(&str, &str)] = &[
    (
        "%%\nX (0) = 0\nX (1) = 254\n",
        "refused: data missing X (2)\n",
    ),
    ("%%\nX (0) = 256\n", "refused: data syntax 5\n"),
    ("%%\nX (3) = 0\n", "refused: data outside 5\n"),
];

#[test]
fn wave_is_refused_as_run_is(rt: HostRuntime) -> Result<(), Fail> {
    let alloc = rt.alloc();
    for (data, out) in DATA_ROWS {
        let answer = answered(alloc, WAVE, joined(alloc, &[INCREMENT, data])?, 4096)?;
        assert_answer(&rt, &answer, Status::Refused, out, data);
    }
    Ok(())
}

// What an input begins with, what comes then so many times, how it ends, the status of `unwave` and its output. The name of the
// module fills the longest dump.
const LONG: &[(&str, &str, usize, &str, Status, &str)] = &[
    (
        "",
        " ",
        1_048_576,
        "",
        Status::Refused,
        "refused: wave syntax 1\n",
    ),
    (
        "",
        " ",
        1_048_577,
        "",
        Status::Refused,
        "refused: too long\n",
    ),
    (
        "$timescale 1ns $end\n$scope module ",
        "m",
        1_048_498,
        " $end\n$upscope $end\n$enddefinitions $end\n#0\n",
        Status::Done,
        "",
    ),
    (
        "$timescale 1ns $end\n$scope module ",
        "m",
        1_048_499,
        " $end\n$upscope $end\n$enddefinitions $end\n#0\n",
        Status::Refused,
        "refused: too long\n",
    ),
];

#[test]
fn a_dump_may_have_so_many_bytes(rt: HostRuntime) -> Result<(), Fail> {
    let alloc = rt.alloc();
    for (before, part, count, after, status, out) in LONG {
        let input = repeated(alloc, before, part, *count, after)?;
        let answer = answered(alloc, &["unwave"], input, 4096)?;
        assert_answer(&rt, &answer, *status, out, out);
    }
    Ok(())
}

const ONES: &str = "system t () returns (Y : {i|0<=i<=4095} of integer); let Y = 1; tel;\n%%\n";

const HEAD_OF_ONES: &str =
    "$timescale 1ns $end\n$scope module array $end\n$var wire 32 ! o0 $end\n$upscope $end\n$enddefinitions $end\n#0\nb1 !\n";

// The dump of a port that is 1 in 4,096 cycles.
fn dump_of_ones(alloc: Global) -> Result<String, Fail> {
    let mut dump = String::from_str(alloc, HEAD_OF_ONES)?;
    for cycle in 1..=4096 {
        write!(dump, "#{cycle}\n")?;
    }
    Ok(dump)
}

// The lines of its cycles.
fn lines_of_ones(alloc: Global) -> Result<String, Fail> {
    let mut lines = String::new(alloc);
    for cycle in 0..4096 {
        write!(lines, "{cycle} o0=1\n")?;
    }
    Ok(lines)
}

// The answer to these pieces, behind one another.
fn assert_given(
    rt: &impl Abort,
    alloc: Global,
    command: &str,
    pieces: &[&str],
    status: Status,
    out: &str,
) -> Result<(), Fail> {
    let answer = answered(alloc, &[command], joined(alloc, pieces)?, 65536)?;
    assert_answer(rt, &answer, status, out, command);
    Ok(())
}

fn assert_ones(rt: &impl Abort, alloc: Global, dump: &str, lines: &str) -> Result<(), Fail> {
    let late = "refused: wave syntax 4104\n";
    assert_given(rt, alloc, "wave", &[ONES], Status::Done, dump)?;
    assert_given(rt, alloc, "unwave", &[dump], Status::Done, lines)?;
    assert_given(
        rt,
        alloc,
        "unwave",
        &[dump, "#4097\n"],
        Status::Refused,
        late,
    )?;
    assert_given(
        rt,
        alloc,
        "unwave",
        &[dump, "b0 !\n"],
        Status::Refused,
        late,
    )
}

#[test]
fn a_dump_may_have_4096_cycles(rt: HostRuntime) -> Result<(), Fail> {
    let alloc = rt.alloc();
    let dump = dump_of_ones(alloc)?;
    let lines = lines_of_ones(alloc)?;
    assert_ones(&rt, alloc, dump.as_str(), lines.as_str())
}

// An array of 96 cells, each with an output port.
const ROW_OF_ONES: &str =
    "system t () returns (Y : {i,j|0<=i<=95;j=0} of integer); let Y = 1; tel;\n%%\n";

// The codes of the last ports, which have two digits from port 94 on.
const LAST_PORTS: &str =
    "$var wire 32 } o92 $end\n$var wire 32 ~ o93 $end\n$var wire 32 !\" o94 $end\n$var wire 32 \"\" o95 $end\n$upscope $end\n$enddefinitions $end\n#0\nb1 !\n";

#[test]
fn the_codes_of_many_ports_have_two_digits(rt: HostRuntime) -> Result<(), Fail> {
    let alloc = rt.alloc();
    let answer = answered(alloc, &["wave"], joined(alloc, &[ROW_OF_ONES])?, 65536)?;
    assert_end(
        &rt,
        &answer,
        Status::Done,
        "b1 }\nb1 ~\nb1 !\"\nb1 \"\"\n#1\n",
    );
    let dump = str::from_utf8(answer.sink.held()).unwrap_or("");
    assert!(rt; dump.contains(LAST_PORTS));
    let back = answered(alloc, &["unwave"], joined(alloc, &[dump])?, 4096)?;
    assert!(rt; back.sink.held().starts_with(b"0 o0=1 o1=1 o2=1 "));
    assert_end(&rt, &back, Status::Done, " o93=1 o94=1 o95=1\n");
    Ok(())
}

// The words, and the two pieces of an input: a dump that is written, lines of a dump, and a refusal.
const FAILING: &[(&[&str], &str, &str)] = &[
    (WAVE, INCREMENT, DATA),
    (&["unwave"], HEAD_OF_ONES, "#1\n#2\n#3\n#4\n"),
    (&["unwave"], HEAD_OF_ONES, "#1\n#2\n#3\n#5\n"),
];

#[test]
fn a_sink_may_fail_at_a_dump(rt: HostRuntime) -> Result<(), Fail> {
    let alloc = rt.alloc();
    for (words, first, rest) in FAILING {
        let whole = answered(alloc, words, joined(alloc, &[first, rest])?, 4096)?;
        for call in 0..5 {
            let input = joined(alloc, &[first, rest])?;
            assert_front(&rt, alloc, words, input, call, whole.sink.held())?;
        }
    }
    Ok(())
}

#[test]
fn a_source_may_fail_at_a_dump(rt: HostRuntime) -> Result<(), Fail> {
    let alloc = rt.alloc();
    for call in 0..5 {
        let input = dump_with(alloc, 0, &[])?;
        assert_read_fault(&rt, alloc, &["unwave"], input, 50, call)?;
    }
    Ok(())
}
