ghost use Rattle.std.specs.Prelude.{ℕ, ℤ, pos, List, ◌≡◌, ◌≤◌, ◌<◌, ◌^◌, ◌↔◌, length, All, IsTrue, nat_lt, nat_eq, ◌&&◌, if◌then◌else◌};
ghost use Rattle.av_affine.specs.Numbers.{dot, AtMost, four};
ghost use Rattle.av_affine.specs.Squares.{row_of, column_of, product, identity};

use crate::form::products;
use crate::four;
use arrayvec::ArrayVec;

/// A square matrix of at most four rows.
///
/// The first `size` cells of the first `size` rows count, and the others are ignored.
#[derive(Clone, Copy, Debug, PartialEq, Eq)]
pub struct Square {
    pub size: u8,
    pub cells: [[i64; 4]; 4],
}

/// The product: the matrix that does first `b` and then `a`. It has 0 past its rows and columns.
pub fn multiply(a: &Square, b: &Square) -> Square
    requires sizes { a.now.size ≡ b.now.size }
    requires first { All (AtMost 1024) a.now.cells }
    requires second { All (AtMost 1024) b.now.cells }
    ensures { result ≡ product a.now b.now }
{
    Square {
        size: a.size,
        cells: four!(row => product_row(a, b, row)),
    }
}

/// Whether `m` times `n` is the identity.
pub fn is_inverse(m: &Square, n: &Square) -> bool
    requires sizes { m.now.size ≡ n.now.size }
    requires first { All (AtMost 1024) m.now.cells }
    requires second { All (AtMost 1024) n.now.cells }
    ensures { IsTrue result ↔ (product m.now n.now ≡ identity m.now.size) }
{
    multiply(m, n) == unit_matrix(m.size)
}

// A column, from the first row to the last.
fn column(m: &Square, index: usize) -> ArrayVec<i64, 4>
    requires { index < 4 }
    ensures { result.items ≡ column_of index m.now }
{
    let mut entries = ArrayVec::new();
    let size = (m.size as usize).min(4);
    for row in &m.cells[..size] {
        entries.push(row[index]);
    }
    entries
}

// A cell of the product, and 0 past its rows and columns.
fn product_cell(a: &Square, b: &Square, row: usize, index: usize) -> i64
    requires row { row < 4 }
    requires index { index < 4 }
    requires first { All (AtMost 1024) a.now.cells }
    requires second { All (AtMost 1024) b.now.cells }
    ensures { result ≡ (if nat_lt row a.now.size && nat_lt index a.now.size
        then dot (row_of row a.now) (column_of index b.now)
        else pos 0) }
{
    let size = a.size as usize;
    if row < size && index < size {
        products(a.cells[row], column(b, index).as_slice())
    } else {
        0
    }
}

// A row of the product.
fn product_row(a: &Square, b: &Square, row: usize) -> [i64; 4]
    requires row { row < 4 }
    requires first { All (AtMost 1024) a.now.cells }
    requires second { All (AtMost 1024) b.now.cells }
    ensures { result ≡ four (λ index.
        if nat_lt row a.now.size && nat_lt index a.now.size
        then dot (row_of row a.now) (column_of index b.now)
        else pos 0) }
{
    four!(index => product_cell(a, b, row, index))
}

// The identity's cell, and 0 past its rows and columns.
fn unit_cell(size: u8, row: usize, index: usize) -> i64
    ensures { result ≡ (if nat_lt row size && nat_lt index size
        then (if nat_eq row index then pos 1 else pos 0)
        else pos 0) }
{
    let size = size as usize;
    if row < size && index < size && row == index {
        1
    } else {
        0
    }
}

// A row of the identity.
fn unit_row(size: u8, row: usize) -> [i64; 4]
    ensures { result ≡ four (λ index.
        if nat_lt row size && nat_lt index size
        then (if nat_eq row index then pos 1 else pos 0)
        else pos 0) }
{
    four!(index => unit_cell(size, row, index))
}

// The identity.
fn unit_matrix(size: u8) -> Square
    ensures { result ≡ identity size }
{
    Square {
        size,
        cells: four!(row => unit_row(size, row)),
    }
}
