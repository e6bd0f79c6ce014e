/// What a limit is on.
#[derive(Clone, Copy, Debug, PartialEq, Eq)]
pub enum Quantity {
    /// Declared variables.
    Variables,
    /// Indices of a domain, a map or an equation.
    Indices,
    /// Nodes of one equation's tree.
    Nodes,
    /// The greatest absolute coefficient of an index in a row or a map.
    Coefficient,
    /// The greatest absolute constant in a row or a map.
    Constant,
    /// Normalised rows of a set.
    Constraints,
    /// The greatest absolute bound of an index.
    Coordinate,
    /// Whole points of the box around a set.
    BoxSize,
    /// Reductions of a system.
    Reductions,
}
