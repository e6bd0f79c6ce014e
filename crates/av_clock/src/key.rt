ghost use Rattle.std.specs.Prelude.{◌≡◌, IsTrue};
ghost use Rattle.av_clock.specs.declared.gate.Reading.TheVariants.{Constant};
ghost use Rattle.av_clock.specs.inner.Keys.{number_of as symbol_number, gate_key as key_of_gate, key_of};

use crate::gate::{Assignment, Gate, Reading};
use av_net::Symbol;

/// What equal assignments have in common: the form and the numbers of their gates, the width of what they give, and what they read.
#[derive(Clone, Copy, PartialEq, Eq, PartialOrd, Ord, Drop)]
pub(crate) struct Key {
    form: u32,
    symbol: u32,
    number: u32,
    bits: u32,
    width: u32,
    first: Reading,
    second: Reading,
    third: Reading,
}

impl Key {
    /// The key of an assignment.
    pub(crate) fn of(assignment: &Assignment) -> Key
        ensures { result ≡ key_of assignment.now }
    {
        gate_key(assignment.width.bits, &assignment.gate)
    }

    /// Whether it is another key.
    pub(crate) fn is_same(&self, other: &Key) -> bool
        ensures { IsTrue result → self.now ≡ other.now }
    {
        self.form == other.form
            && self.symbol == other.symbol
            && self.number == other.number
            && self.bits == other.bits
            && self.width == other.width
            && self.first.is_same(other.first)
            && self.second.is_same(other.second)
            && self.third.is_same(other.third)
    }
}

// The key of a gate that gives words of so many bits.
fn gate_key(width: u32, gate: &Gate) -> Key
    ensures { result ≡ key_of_gate width gate.now }
{
    match gate {
        Gate::Buffer(input) => read_one(0, 0, 0, width, *input),
        Gate::Operator {
            left,
            symbol,
            right,
            width: bits,
        } => read_two(1, *symbol, bits.bits, width, *left, *right),
        Gate::Comparator {
            left,
            symbol,
            right,
            width: bits,
        } => read_two(2, *symbol, bits.bits, width, *left, *right),
        Gate::Multiplexer {
            condition,
            first,
            second,
        } => Key {
            form: 3,
            symbol: 0,
            number: 0,
            bits: 0,
            width,
            first: *condition,
            second: *first,
            third: *second,
        },
        Gate::Slice {
            input,
            from,
            width: bits,
        } => read_one(4, *from, bits.bits, width, *input),
        Gate::Extender {
            input,
            width: bits,
            by,
        } => read_one(5, *by, bits.bits, width, *input),
    }
}

// The key of a gate of this form that reads one word.
fn read_one(form: u32, number: u32, bits: u32, width: u32, input: Reading) -> Key
    ensures { result ≡ record {
      form = form;
      symbol = 0;
      number = number;
      bits = bits;
      width = width;
      first = input;
      second = Constant 0;
      third = Constant 0;
    } }
{
    Key {
        form,
        symbol: 0,
        number,
        bits,
        width,
        first: input,
        second: Reading::Constant(0),
        third: Reading::Constant(0),
    }
}

// The key of a gate of this form that reads two words under an operator.
fn read_two(form: u32, symbol: Symbol, bits: u32, width: u32, left: Reading, right: Reading) -> Key
    ensures { result ≡ record {
      form = form;
      symbol = symbol_number symbol;
      number = 0;
      bits = bits;
      width = width;
      first = left;
      second = right;
      third = Constant 0;
    } }
{
    Key {
        form,
        symbol: number_of(symbol),
        number: 0,
        bits,
        width,
        first: left,
        second: right,
        third: Reading::Constant(0),
    }
}

fn number_of(symbol: Symbol) -> u32
    ensures { result ≡ symbol_number symbol }
{
    match symbol {
        Symbol::Add => 0,
        Symbol::Sub => 1,
        Symbol::Mul => 2,
        Symbol::And => 3,
        Symbol::Or => 4,
        Symbol::Equal => 5,
        Symbol::Unequal => 6,
        Symbol::Less => 7,
        Symbol::LessEqual => 8,
        Symbol::Greater => 9,
        Symbol::GreaterEqual => 10,
    }
}
