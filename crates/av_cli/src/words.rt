ghost use Rattle.std.specs.Prelude.{◌≡◌, ◌<◌, ◌≤◌, ◌↔◌, ◌∷◌, [], ℕ, List as Items, false, codes, drop, length, Contains, IsTrue, IfSome, IfNone};
ghost use Rattle.av_cli.specs.Commands.{Options as Said, Say, AreRead, AskDemo, IsDemo, IsBare, no_options, given_or, default_width, default_box};
ghost use Rattle.av_commands.specs.SizeWords.{GiveSizes};
ghost use Rattle.av_cli.specs.inner.CommandsSeen.{Are, takes_input};
ghost use Rattle.av_cli.specs.inner.DemoWords.{IsDemoAt};

use crate::options::read_options;
use av_base::{Name, Width};
use av_commands::{is_size, number_up_to};
use av_flat::Reach;

// The greatest size of the matrices of a demo.
const LARGEST_DEMO: u32 = 16;

/// What the words ask for.
#[derive(Clone, Copy, Debug)]
pub(crate) enum Command {
    /// Whether a system has each declared point exactly once. Its sizes stand in the words.
    Check {
        width: Width,
    },
    /// The first schedule of a system in a box. Its sizes stand in the words.
    Schedule {
        width: Width,
        reach: Reach,
    },
    /// The array of a system by its first schedule in a box. Its sizes stand in the words.
    Table {
        width: Width,
        reach: Reach,
    },
    /// The text of the design of a system's array by its first schedule in a box. Its sizes stand in the words.
    Emit {
        width: Width,
        reach: Reach,
    },
    /// The solution of a system for data, by its array. Its sizes stand in the words.
    Run {
        width: Width,
        reach: Reach,
    },
    /// The design of a system's array, and each cycle of it on data. Its sizes stand in the words.
    Trace {
        width: Width,
        reach: Reach,
    },
    /// The least schedule of a system in a box, and its length. Its sizes stand in the words.
    Best {
        width: Width,
        reach: Reach,
    },
    /// The design of a system's array that takes problem after problem, and each cycle of it on data sets. Its sizes stand in the words.
    Stream {
        width: Width,
        reach: Reach,
    },
    /// The dump of a run of a system's array on data. Its sizes stand in the words.
    Wave {
        width: Width,
        reach: Reach,
    },
    /// The solutions of a system for eight data sets at most, by its array. Its sizes stand in the words.
    Run8 {
        width: Width,
        reach: Reach,
    },
    /// The run of a module under a stimulus.
    Sim,
    /// The cycles of a dump.
    Unwave,
    /// The product of two matrices of a size, by an array.
    Demo {
        width: Width,
        reach: Reach,
        size: u32,
    },
}

impl Command {
    /// Whether the command reads an input.
    pub(crate) fn takes_input(self) -> bool
        ensures { result ≡ takes_input self }
    {
        match self {
            Command::Demo { .. } => false,
            Command::Check { .. }
            | Command::Schedule { .. }
            | Command::Table { .. }
            | Command::Emit { .. }
            | Command::Run { .. }
            | Command::Trace { .. }
            | Command::Best { .. }
            | Command::Stream { .. }
            | Command::Wave { .. }
            | Command::Run8 { .. }
            | Command::Sim
            | Command::Unwave => true,
        }
    }
}

/// Reads the words of the command line. `None` says that the words are no command.
pub(crate) fn read_words(words: &[Name]) -> Option<Command>
    ensures read { IfSome result (λ command. Are command words.now) }
    ensures unread { IfNone result (AreRead words.now → ⊥) }
{
    let first = words.first()?;
    match first.as_str() {
        "check" => Some(Command::Check {
            width: read_width(words)?,
        }),
        "schedule" => {
            let (width, reach) = read_width_and_reach(words)?;
            Some(Command::Schedule { width, reach })
        }
        "table" => {
            let (width, reach) = read_width_and_reach(words)?;
            Some(Command::Table { width, reach })
        }
        "emit" => {
            let (width, reach) = read_width_and_reach(words)?;
            Some(Command::Emit { width, reach })
        }
        "run" => {
            let (width, reach) = read_width_and_reach(words)?;
            Some(Command::Run { width, reach })
        }
        "trace" => {
            let (width, reach) = read_width_and_reach(words)?;
            Some(Command::Trace { width, reach })
        }
        "best" => {
            let (width, reach) = read_width_and_reach(words)?;
            Some(Command::Best { width, reach })
        }
        "stream" => {
            let (width, reach) = read_width_and_reach(words)?;
            Some(Command::Stream { width, reach })
        }
        "wave" => {
            let (width, reach) = read_width_and_reach(words)?;
            Some(Command::Wave { width, reach })
        }
        "run8" => {
            let (width, reach) = read_width_and_reach(words)?;
            Some(Command::Run8 { width, reach })
        }
        "sim" if is_bare(words) => Some(Command::Sim),
        "unwave" if is_bare(words) => Some(Command::Unwave),
        "demo" => {
            let (width, reach, size) = read_demo(words)?;
            Some(Command::Demo { width, reach, size })
        }
        _ => None,
    }
}

// The width of words, the box and the size of matrices that stand behind `demo`.
fn read_demo(words: &[Name]) -> Option<(Width, Reach, u32)>
    requires { (rest : Items (Items ℕ)) × (words.now ≡ codes "demo" ∷ rest) }
    ensures read { IfSome result (λ x. IsDemo words.now x.0.bits x.1.size x.2) }
    ensures unread { IfNone result (AskDemo words.now → ⊥) }
{
    if has_size(words) {
        return None;
    }
    for at in 1..words.len() {
        if let Some(found) = demo_at(words, at) {
            return Some(found);
        }
    }
    None
}

// One of the words has the form of a size.
fn has_size(words: &[Name]) -> bool
    ensures some { IsTrue result → GiveSizes words.now [] → ⊥ }
    ensures none { result ≡ false → GiveSizes words.now [] }
{
    for word in words {
        if is_size(word.as_str().as_bytes()) {
            return true;
        }
    }
    false
}

// The same, where the size of the matrices is the word at a place.
fn demo_at(words: &[Name], at: usize) -> Option<(Width, Reach, u32)>
    requires { (1 ≤ at) × (at < length words.now) }
    ensures read { IfSome result (λ x. IsDemoAt words.now at x.0.bits x.1.size x.2) }
    ensures unread { IfNone result ((bits box k : ℕ) → IsDemoAt words.now at bits box k → ⊥) }
{
    let size = number_up_to(LARGEST_DEMO, words[at].as_str().as_bytes())?;
    let before = &words[1..at];
    if at + 1 < words.len() && has_dashes(before) {
        return None;
    }
    let options = read_options(before, 0)?.read_after(words, at + 1)?;
    Some((
        options.width_or_default()?,
        options.reach_or_default()?,
        size,
    ))
}

fn has_dashes(words: &[Name]) -> bool
    ensures { IsTrue result ↔ Contains words.now (codes "--") }
{
    words.iter().any(|word| word.as_str() == "--")
}

// The width of words that the options behind the first word give.
fn read_width(words: &[Name]) -> Option<Width>
    requires { 0 < length words.now }
    ensures read { IfSome result (λ width. (o : Said)
        × Say no_options (drop 1 words.now) o × (width.bits ≡ given_or default_width o.width)) }
    ensures unread { IfNone result ((o : Said) → Say no_options (drop 1 words.now) o → ⊥) }
{
    read_options(words, 1)?.width_or_default()
}

// The width of words and the box that the options behind the first word give.
fn read_width_and_reach(words: &[Name]) -> Option<(Width, Reach)>
    requires { 0 < length words.now }
    ensures read { IfSome result (λ x. (o : Said) × Say no_options (drop 1 words.now) o
        × (x.0.bits ≡ given_or default_width o.width) × (x.1.size ≡ given_or default_box o.box)) }
    ensures unread { IfNone result ((o : Said) → Say no_options (drop 1 words.now) o → ⊥) }
{
    let options = read_options(words, 1)?;
    Some((options.width_or_default()?, options.reach_or_default()?))
}

// Nothing but `--` stands behind the first word.
fn is_bare(words: &[Name]) -> bool
    requires { 0 < length words.now }
    ensures { IsTrue result ↔ IsBare (drop 1 words.now) }
{
    words.len() == 1 || (words.len() == 2 && words[1].as_str() == "--")
}
