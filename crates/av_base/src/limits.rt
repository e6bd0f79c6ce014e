//! The limits of the language and of its arrays. Definitions, and the tests of a limit, state the number itself, so that another one
//! here is refused.

/// The greatest number of bytes of an input.
pub const MOST_BYTES: usize = 1_048_576;

/// The greatest level of a token: how many parts of a text it stands inside.
pub const MOST_LEVEL: u32 = 256;

/// The most bits of a word.
pub const MOST_BITS: u32 = 64;

/// The greatest box: how far the entries of a schedule's linear parts may go from 0.
pub const MOST_BOX: u32 = 4;

/// The greatest absolute value of a size.
pub const MOST_SIZE: u32 = 1_048_576;

/// The most variables of a system.
pub const MOST_VARIABLES: usize = 32;

/// The most index names or results that stand in one list.
pub const MOST_INDICES: usize = 4;

/// The most nodes of the tree of one equation.
pub const MOST_NODES: usize = 4096;

/// The most pieces of one variable.
pub const MOST_PIECES: u128 = 256;

/// The greatest absolute value of a coefficient of an affine form.
pub const MOST_COEFFICIENT: u64 = 1024;

/// The greatest absolute value of a constant of an affine form.
pub const MOST_CONSTANT: u64 = 1_048_576;

/// The most constraints of one set.
pub const MOST_ROWS: usize = 20;

/// The greatest absolute value of a coordinate of a point.
pub const MOST_COORDINATE: u128 = 4095;

/// The most points of the box around a set.
pub const MOST_POINTS: i128 = 65_536;

/// The most reductions with a point.
pub const MOST_REDUCTIONS: u128 = 16;

/// The most choices of linear parts for one component of the dependence graph.
pub const MOST_CANDIDATES: u128 = 4_194_304;

/// The most cycles of an array and of a stimulus.
pub const MOST_CYCLES: u128 = 4096;

/// The most cells of an array.
pub const MOST_CELLS: u128 = 2048;

/// The most links of an array.
pub const MOST_LINKS: usize = 16_384;

/// The most registers of an array's delay lines.
pub const MOST_DELAYS: u128 = 32_768;

/// The most operators of an array.
pub const MOST_OPERATORS: u128 = 1_048_576;
