//! Data sets behind a text, and the numbers of their first lines.

ghost use Rattle.std.specs.Prelude.{◌+◌, ◌<◌, length};

use crate::asserts::same;
use av_data::{DataSet, data_sets};
use std::alloc::Global;
use std::fmt::Write;
use std::process::Abort;
use std::test::Fail;

// Adds the number of a set's first line, and its bytes in brackets.
fn push_set(to: &mut String, set: &DataSet<'_>) -> Result<(), Fail> {
    let text = str::from_utf8(set.bytes).unwrap_or("?");
    write!(to, "{} [{text}] ", set.first_line)?;
    Ok(())
}

// The sets of an input whose first line has this number.
fn told(alloc: Global, bytes: &[u8], first_line: u32) -> Result<String, Fail>
    requires { first_line + length bytes.now < 4294967294 }
{
    let mut to = String::new(alloc);
    for set in data_sets(alloc, bytes, first_line)?.as_slice() {
        push_set(&mut to, set)?;
    }
    Ok(to)
}

// What stands behind a text of three lines and a mark.
fn assert_sets(rt: &impl Abort, alloc: Global, bytes: &[u8], wanted: &str) -> Result<(), Fail> {
    if bytes.len() > 100_000 {
        return Err(Fail::new("long"));
    }
    same(rt, told(alloc, bytes, 5)?.as_str(), wanted);
    Ok(())
}

#[test]
fn sets_stand_between_marks(rt: HostRuntime) -> Result<(), Fail> {
    let alloc = rt.alloc();
    assert_sets(&rt, alloc, b"", "5 [] ")?;
    assert_sets(&rt, alloc, b"X (0) = 1", "5 [X (0) = 1] ")?;
    assert_sets(&rt, alloc, b"%%\n", "5 [] 6 [] ")?;
    assert_sets(&rt, alloc, b"a\nb\n%%\nc\n", "5 [a\nb\n] 8 [c\n] ")?;
    // A mark may end with a carriage return, and the last one with the input; `%%%` and ` %%` are none.
    assert_sets(
        &rt,
        alloc,
        b"a\n%%\n\n%%%\n %%\n%%\r\nb\n%%",
        "5 [a\n] 7 [\n%%%\n %%\n] 11 [b\n] 13 [] ",
    )
}
