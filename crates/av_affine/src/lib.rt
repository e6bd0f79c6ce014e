//! Affine forms and maps over whole points of at most four indices, square matrices, and the
//! unimodular completion of a vector: the matrix and its inverse are whole.
#![tactic(auto)]

mod cells;
mod completion;
mod compose;
mod divisor;
mod form;
mod four;
mod inner_product;
mod map;
mod pivot;
mod primitive;
mod rows;
mod square;

pub use completion::{Placed, complete};
pub use compose::{most_coefficient, most_constant};
pub use divisor::{coefficients_over, gcd, gcd_of};
pub use form::Form;
pub use inner_product::dot;
pub use map::{Map, Over};
pub use rows::Rows;
pub use square::{Square, is_inverse, multiply};
