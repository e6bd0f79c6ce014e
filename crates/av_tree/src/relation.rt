/// A comparison of two sides. `Unequal` stands in the condition of a choice alone, and in no domain.
#[derive(Clone, Copy, Debug, PartialEq, Eq)]
pub enum Relation {
    Less,
    LessEqual,
    Greater,
    GreaterEqual,
    Equal,
    Unequal,
}
