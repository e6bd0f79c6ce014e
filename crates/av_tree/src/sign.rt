/// What joins two parts of an expression: `+`, `-`, `*`, `min` or `max`.
#[derive(Clone, Copy, Debug, PartialEq, Eq)]
pub enum Sign {
    Add,
    Sub,
    Mul,
    Min,
    Max,
}
