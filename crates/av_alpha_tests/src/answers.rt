//! What becomes of texts, as rows of a test have it.

ghost use Rattle.std.specs.Prelude.{◌<◌, length};
ghost use Rattle.av_names.specs.Texts.{AreSmall};

use crate::asserts::same;
use av_base::Width;
use av_names::Size;
use av_testing::size_list;
use std::alloc::Global;
use std::process::Abort;
use std::test::Fail;

/// A text or a part of one, the sizes, and the answer.
pub(crate) type TextRow = (&'static str, &'static [(&'static str, i64)], &'static str);

/// A call whose answer to a text is told in words.
pub(crate) trait Answers {
    /// Adds what becomes of the text with the sizes.
    fn push_answer(
        &self,
        out: &mut String,
        alloc: Global,
        text: &str,
        sizes: &[Size],
        width: Width,
    ) -> Result<(), Fail>
        requires text { length text.now < 4294967295 }
        requires sizes { AreSmall sizes.now };
}

// What becomes of the text with the sizes, in words of 8 bits.
fn shown<A: Answers>(
    alloc: Global,
    answers: &A,
    text: &str,
    words: &[(&str, i64)],
) -> Result<String, Fail> {
    let mut out = String::new(alloc);
    let sizes = size_list(alloc, words)?;
    let width = Width::new(8).ok_or("a width")?;
    if text.len() > 100_000 {
        return Err(Fail::new("a long text"));
    }
    answers.push_answer(&mut out, alloc, text, sizes.as_slice(), width)?;
    Ok(out)
}

/// The text with the sizes has this answer, in words of 8 bits.
pub(crate) fn assert_text<A: Answers>(
    rt: &impl Abort,
    alloc: Global,
    answers: &A,
    text: &str,
    sizes: &[(&str, i64)],
    wanted: &str,
) -> Result<(), Fail> {
    same(rt, shown(alloc, answers, text, sizes)?.as_str(), wanted);
    Ok(())
}

/// Each row has its answer, between a head and a tail.
pub(crate) fn assert_texts<A: Answers>(
    rt: &impl Abort,
    alloc: Global,
    answers: &A,
    head: &str,
    tail: &str,
    rows: &[TextRow],
) -> Result<(), Fail> {
    for (body, sizes, wanted) in rows {
        let text = format!(in alloc; "{head}{body}{tail}")?;
        assert_text(rt, alloc, answers, text.as_str(), sizes, wanted)?;
    }
    Ok(())
}
