//! Options and sizes behind a command, word by word.

ghost use Rattle.std.specs.Prelude.{◌≡◌, ◌<◌, ◌≤◌, ◌↔◌, ℕ, List, Some, None, codes, drop, length, IsTrue, IfSome, IfNone};
ghost use Rattle.std.specs.List.{AllByRecursion};
ghost use Rattle.av_cli.specs.Commands.{Options as Said, Say, IsOption, no_options, having_width, having_box, given_or, default_width, default_box};
ghost use Rattle.av_commands.specs.SizeWords.{IsSize, SpellsUpTo};
ghost use Rattle.av_cli.specs.inner.CommandsSeen.{seen};

use av_base::limits::{MOST_BITS, MOST_BOX};
use av_base::{Name, Width};
use av_commands::{is_size, number_up_to};
use av_flat::Reach;

// Bits of a word where no option gives them.
const DEFAULT_BITS: u32 = 32;

// The box where no option gives it.
const DEFAULT_BOX: u32 = 2;

/// What options give.
#[derive(Clone, Copy, Debug)]
pub(crate) struct Options {
    pub(crate) width: Option<Width>,
    pub(crate) reach: Option<Reach>,
}

/// The options of the words from this place on, among which sizes may stand. `None` says that the words are not read.
pub(crate) fn read_options(words: &[Name], from: usize) -> Option<Options>
    requires { from ≤ length words.now }
    ensures read { IfSome result (λ o. Say no_options (drop from words.now) (seen o)) }
    ensures unread { IfNone result ((p : Said) → Say no_options (drop from words.now) p → ⊥) }
{
    let none = Options {
        width: None,
        reach: None,
    };
    none.read_after(words, from)
}

// Whether the words from this place on are sizes.
fn are_sizes(words: &[Name], from: usize) -> bool
    requires { from ≤ length words.now }
    ensures { IsTrue result ↔ AllByRecursion IsSize (drop from words.now) }
{
    let mut at = from;
    while at < words.len() {
        if !is_size(words[at].as_str().as_bytes()) {
            return false;
        }
        at += 1;
    }
    true
}

// The value of an option of this name at this place, and the place behind it.
fn option_at<'a>(words: &'a [Name], at: usize, name: &[u8]) -> Option<(&'a [u8], usize)>
    requires { at < length words.now }
    ensures found { IfSome result (λ x. (at < x.1) × (x.1 ≤ length words.now)
        × IsOption name.now (drop at words.now) x.0.now (drop x.1 words.now)) }
    ensures none { IfNone result ((digits : List ℕ) (rest : List (List ℕ))
        → IsOption name.now (drop at words.now) digits rest → ⊥) }
{
    let word = words[at].as_str().as_bytes();
    let tail = word.strip_prefix(name)?;
    if tail.is_empty() {
        let value = words.get(at + 1)?;
        return Some((value.as_str().as_bytes(), at + 2));
    }
    let value = tail.strip_prefix(b"=")?;
    Some((value, at + 1))
}

impl Options {
    /// The options of the words from this place on, after these.
    pub(crate) fn read_after(self, words: &[Name], from: usize) -> Option<Options>
        requires { from ≤ length words.now }
        ensures read { IfSome result (λ o. Say (seen self) (drop from words.now) (seen o)) }
        ensures unread { IfNone result ((p : Said) → Say (seen self) (drop from words.now) p → ⊥) }
    {
        let mut options = self;
        let mut at = from;
        while at < words.len() {
            let (more, next) = options.read(words, at)?;
            options = more;
            at = next;
        }
        Some(options)
    }

    // Reads the word at a place, and its value where it is an option: the options with it, and the place behind.
    fn read(self, words: &[Name], at: usize) -> Option<(Options, usize)>
        requires { at < length words.now }
        ensures read { IfSome result (λ x. (at < x.1) × (x.1 ≤ length words.now) × ((p : Said)
            → Say (seen self) (drop at words.now) p ↔ Say (seen x.0) (drop x.1 words.now) p)) }
        ensures unread { IfNone result ((p : Said) → Say (seen self) (drop at words.now) p → ⊥) }
    {
        if let Some((digits, next)) = option_at(words, at, b"--width") {
            return Some((self.with_width(digits)?, next));
        }
        if let Some((digits, next)) = option_at(words, at, b"--box") {
            return Some((self.with_box(digits)?, next));
        }
        self.read_size(words, at)
    }

    // Reads a size, or `--` and the sizes behind it.
    fn read_size(self, words: &[Name], at: usize) -> Option<(Options, usize)>
        requires at { at < length words.now }
        requires no_width { (digits : List ℕ) (rest : List (List ℕ))
            → IsOption (codes "--width") (drop at words.now) digits rest → ⊥ }
        requires no_box { (digits : List ℕ) (rest : List (List ℕ))
            → IsOption (codes "--box") (drop at words.now) digits rest → ⊥ }
        ensures read { IfSome result (λ x. (at < x.1) × (x.1 ≤ length words.now) × ((p : Said)
            → Say (seen self) (drop at words.now) p ↔ Say (seen x.0) (drop x.1 words.now) p)) }
        ensures unread { IfNone result ((p : Said) → Say (seen self) (drop at words.now) p → ⊥) }
    {
        let word = words[at].as_str();
        if word == "--" {
            return if are_sizes(words, at + 1) {
                Some((self, words.len()))
            } else {
                None
            };
        }
        if is_size(word.as_bytes()) {
            Some((self, at + 1))
        } else {
            None
        }
    }

    // The options with a width, where none was given yet.
    fn with_width(self, digits: &[u8]) -> Option<Options>
        ensures with { IfSome result (λ o. ((seen self).width ≡ None)
            × ((n : ℕ) × SpellsUpTo 64 digits.now n × (seen o ≡ having_width (seen self) n))) }
        ensures none { IfNone result ((n : ℕ)
            → (seen self).width ≡ None → SpellsUpTo 64 digits.now n → ⊥) }
    {
        if self.width.is_some() {
            return None;
        }
        let bits = number_up_to(MOST_BITS, digits)?;
        let width = Width::new(bits)?;
        Some(Options {
            width: Some(width),
            reach: self.reach,
        })
    }

    // The options with a size of the box, where none was given yet.
    fn with_box(self, digits: &[u8]) -> Option<Options>
        ensures with { IfSome result (λ o. ((seen self).box ≡ None)
            × ((n : ℕ) × SpellsUpTo 4 digits.now n × (seen o ≡ having_box (seen self) n))) }
        ensures none { IfNone result ((n : ℕ)
            → (seen self).box ≡ None → SpellsUpTo 4 digits.now n → ⊥) }
    {
        if self.reach.is_some() {
            return None;
        }
        let size = number_up_to(MOST_BOX, digits)?;
        let reach = Reach::new(size)?;
        Some(Options {
            width: self.width,
            reach: Some(reach),
        })
    }

    /// The width of words that is given, or 32 bits.
    pub(crate) fn width_or_default(self) -> Option<Width>
        ensures given { IfSome result (λ width.
            width.bits ≡ given_or default_width (seen self).width) }
        ensures some { IfNone result ⊥ }
    {
        match self.width {
            Some(width) => Some(width),
            None => Width::new(DEFAULT_BITS),
        }
    }

    /// The box that is given, or that of size 2.
    pub(crate) fn reach_or_default(self) -> Option<Reach>
        ensures given { IfSome result (λ reach. reach.size ≡ given_or default_box (seen self).box) }
        ensures some { IfNone result ⊥ }
    {
        match self.reach {
            Some(reach) => Some(reach),
            None => Reach::new(DEFAULT_BOX),
        }
    }
}
