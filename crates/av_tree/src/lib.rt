//! What an Alpha system is and means: its tree, how a text spells it, the points of its domains, the
//! words of its expressions and its solutions. The definitions stand in `specs/`.
#![tactic(auto)]

mod domain;
mod expression;
mod laws;
mod relation;
mod sign;
mod system;
mod terms;

pub use domain::{Constraint, DomainText, IndexExpr, MapText, Term};
pub use expression::{Access, Expr};
pub use laws::{counted_word, one_word};
pub use relation::Relation;
pub use sign::Sign;
pub use system::{Declaration, Equation, System};
pub use terms::Terms;
