//! What the program answers to words and an input in memory.

ghost use Rattle.std.specs.Prelude.{◌<◌};

use av_base::{List, MemSink, MemSource, Name};
use av_cli::{Status, alphav};
use std::alloc::Global;
use std::process::Abort;
use std::test::Fail;

/// The words, the input, the status and the output.
pub(crate) type Row = (&'static [&'static str], &'static str, Status, &'static str);

/// A status, and the sink that was written to.
#[derive(Drop)]
pub(crate) struct Outcome {
    pub(crate) status: Status,
    pub(crate) sink: MemSink,
}

/// Runs the program on these words, from a source into a sink.
pub(crate) fn answer(
    alloc: Global,
    words: &[&str],
    source: &mut MemSource,
    sink: &mut MemSink,
) -> Result<Status, Fail> {
    let mut names = List::new(alloc);
    for word in words {
        names.push(Name::new(alloc, word)?)?;
    }
    Ok(alphav(alloc, names.as_slice(), source, sink))
}

/// Runs the program on an input, into a sink with so much room.
pub(crate) fn answered(
    alloc: Global,
    words: &[&str],
    input: List<u8>,
    room: usize,
) -> Result<Outcome, Fail> {
    let mut source = MemSource::new(input, 4096, List::new(alloc));
    let mut sink = MemSink::new(alloc, room, 4096, List::new(alloc))?;
    let status = answer(alloc, words, &mut source, &mut sink)?;
    Ok(Outcome { status, sink })
}

/// The parts of a text, one after another.
pub(crate) fn joined(alloc: Global, parts: &[&str]) -> Result<List<u8>, Fail> {
    let mut bytes = List::new(alloc);
    for part in parts {
        extend(&mut bytes, part.as_bytes())?;
    }
    Ok(bytes)
}

/// A text that has a part so many times.
pub(crate) fn repeated(
    alloc: Global,
    before: &str,
    part: &str,
    count: usize,
    after: &str,
) -> Result<List<u8>, Fail> {
    let mut bytes = joined(alloc, &[before])?;
    for _ in 0..count {
        extend(&mut bytes, part.as_bytes())?;
    }
    extend(&mut bytes, after.as_bytes())?;
    Ok(bytes)
}

/// Adds bytes at the end.
pub(crate) fn extend(list: &mut List<u8>, bytes: &[u8]) -> Result<(), Fail> {
    for byte in bytes {
        list.push(*byte)?;
    }
    Ok(())
}

/// The number of one call, or of none.
pub(crate) fn calls(alloc: Global, call: Option<u64>) -> Result<List<u64>, Fail> {
    let mut list = List::new(alloc);
    if let Some(number) = call {
        list.push(number)?;
    }
    Ok(list)
}

/// The answer has this status, and this was written.
pub(crate) fn assert_answer(
    rt: &impl Abort,
    answer: &Outcome,
    status: Status,
    out: &str,
    text: &str,
) {
    assert_eq!(rt; answer.sink.held(), out.as_bytes(), "{text}");
    assert_eq!(rt; answer.status, status, "{text}");
}

/// The answer has this status, and what was written ends with this.
pub(crate) fn assert_end(rt: &impl Abort, answer: &Outcome, status: Status, out: &str) {
    assert!(rt; answer.sink.held().ends_with(out.as_bytes()), "{out}");
    assert_eq!(rt; answer.status, status, "{out}");
}

/// The answer to these words and this input has this status and this output.
pub(crate) fn assert_given(
    rt: &impl Abort,
    alloc: Global,
    words: &[&str],
    input: List<u8>,
    status: Status,
    out: &str,
    text: &str,
) -> Result<(), Fail> {
    let answer = answered(alloc, words, input, 65536)?;
    assert_answer(rt, &answer, status, out, text);
    Ok(())
}

/// The same of an input of these parts.
pub(crate) fn assert_parts(
    rt: &impl Abort,
    alloc: Global,
    words: &[&str],
    parts: &[&str],
    status: Status,
    out: &str,
    text: &str,
) -> Result<(), Fail> {
    let input = joined(alloc, parts)?;
    assert_given(rt, alloc, words, input, status, out, text)
}

// What is answered where the source gives pieces of this size and fails at this call.
fn unread(
    alloc: Global,
    words: &[&str],
    input: List<u8>,
    piece: usize,
    call: u64,
) -> Result<Outcome, Fail>
    requires { 0 < piece }
{
    let mut source = MemSource::new(input, piece, calls(alloc, Some(call))?);
    let mut sink = MemSink::new(alloc, 4096, 4096, List::new(alloc))?;
    let status = answer(alloc, words, &mut source, &mut sink)?;
    Ok(Outcome { status, sink })
}

fn assert_unread(rt: &impl Abort, found: &Outcome, call: u64) {
    assert_eq!(rt; found.status, Status::ReadFault, "call {call}");
    assert!(rt; found.sink.held().is_empty(), "call {call}");
}

/// A source that fails at this call is told, and nothing is written.
pub(crate) fn assert_read_fault(
    rt: &impl Abort,
    alloc: Global,
    words: &[&str],
    input: List<u8>,
    piece: usize,
    call: u64,
) -> Result<(), Fail>
    requires { 0 < piece }
{
    let found = unread(alloc, words, input, piece, call)?;
    assert_unread(rt, &found, call);
    Ok(())
}

/// Each row's words and input have its status and output.
pub(crate) fn assert_rows(rt: &impl Abort, alloc: Global, rows: &[Row]) -> Result<(), Fail> {
    for (words, text, status, out) in rows {
        assert_parts(rt, alloc, words, &[text], *status, out, text)?;
    }
    Ok(())
}

// What is answered where the sink takes five bytes in a call and fails at this one.
fn cut_off(alloc: Global, words: &[&str], input: List<u8>, call: u64) -> Result<Outcome, Fail> {
    let mut source = MemSource::new(input, 4096, List::new(alloc));
    let mut sink = MemSink::new(alloc, 4096, 5, calls(alloc, Some(call))?)?;
    let status = answer(alloc, words, &mut source, &mut sink)?;
    Ok(Outcome { status, sink })
}

fn assert_cut_off(rt: &impl Abort, found: &Outcome, call: u64, whole: &[u8]) {
    assert_eq!(rt; found.status, Status::WriteFault, "call {call}");
    assert_eq!(rt; found.sink.held().is_empty(), call == 0, "call {call}");
    assert!(rt; whole.starts_with(found.sink.held()), "call {call}");
}

/// A sink that fails at this call holds what it took before, which the whole output begins with.
pub(crate) fn assert_front(
    rt: &impl Abort,
    alloc: Global,
    words: &[&str],
    input: List<u8>,
    call: u64,
    whole: &[u8],
) -> Result<(), Fail> {
    let found = cut_off(alloc, words, input, call)?;
    assert_cut_off(rt, &found, call, whole);
    Ok(())
}
