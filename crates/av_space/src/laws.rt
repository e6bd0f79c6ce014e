//! Laws of cells and listings, each the contract of a function that does nothing.

ghost use Rattle.std.specs.Prelude.{ℕ, ◌≡◌, ◌≤◌, ◌^◌, ◌≤ℤ◌, ℤ, IsTrue, List, ◌∷◌, length};
ghost use Rattle.av_poly.specs.Points.{Set};
ghost use Rattle.av_tree.specs.Points.{Point};
ghost use Rattle.av_tree.specs.Values.{Assignment};
ghost use Rattle.av_flat.specs.declared.timed.Timed.{Timed};
ghost use Rattle.av_flat.specs.Points.{has};
ghost use Rattle.av_flat.specs.Schedules.{cycle};
ghost use Rattle.av_flat.specs.Legal.{IsLegal};
ghost use Rattle.av_flat.specs.OneSolution.{AreInputs};
ghost use Rattle.av_net.specs.declared.design.Design.{Design};
ghost use Rattle.av_net.specs.Presented.{IsPresentable};
ghost use Rattle.av_space.specs.declared.cells.Cells.{Cells};
ghost use Rattle.av_space.specs.Coordinates.{AreSpaceRows, Placing, IsPlacing, along};
ghost use Rattle.av_flat.specs.declared.timed.Time.{Time};
ghost use Rattle.av_flat.specs.Trees.{FlatSystem, view_system};
ghost use Rattle.av_space.specs.declared.cells.Cell.{Cell};
ghost use Rattle.av_space.specs.declared.cells.Link.{Link};
ghost use Rattle.av_flat.specs.declared.timed.Helper.{Helper};
ghost use Rattle.av_space.specs.Links.{AreLinks};
ghost use Rattle.av_space.specs.Coordinates.{ArePlacings};
ghost use Rattle.av_space.specs.Occupancy.{AreCells};
ghost use Rattle.av_space.specs.Quantities.{IsCycleCount, IsOperatorCount};
ghost use Rattle.av_space.specs.declared.fault.SpaceFault.{SpaceFault};
ghost use Rattle.av_space.specs.SpaceFaults.{IsSpaceFault};
ghost use Rattle.av_space.specs.Arrays.{IsArrayOf};
ghost use Rattle.av_space.specs.Whole.{IsWhole, HasWholeListing};

/// A law on coordinates: the linear part's primitive vector with the rows below it has a whole inverse.
pub fn coordinates_have_inverses()
    ensures { (linear : List ℤ) (rows : List (List ℤ))
        → (a : AreSpaceRows linear rows) → length linear ≤ 4 → (inverse : List (List ℤ))
        × ((z : Point) → length z ≡ length linear → along inverse (along (a.vector ∷ rows) z) ≡ z) }
{}

/// A law on coordinates: of one node, two points with equal coordinates and equal cycle are one point.
pub fn one_point()
    ensures { (p : Placing) → IsPlacing p → length p.time.linear ≤ 4
        → (y z : Point) → length y ≡ length p.time.linear → length z ≡ length p.time.linear
        → along p.rows y ≡ along p.rows z → cycle p.time y ≡ cycle p.time z → y ≡ z }
{}

/// A law on coordinates: on one cell, a set that has two points has each point of the cell at a cycle between theirs.
pub fn between_points()
    ensures { (p : Placing) → IsPlacing p
        → length p.time.linear ≤ 4 → (set : Set) (x y z : Point) → length x ≡ length p.time.linear
        → length y ≡ length p.time.linear → length z ≡ length p.time.linear
        → along p.rows x ≡ along p.rows y → along p.rows z ≡ along p.rows y
        → cycle p.time x ≤ℤ cycle p.time y → cycle p.time y ≤ℤ cycle p.time z
        → IsTrue (has set x) → IsTrue (has set z) → IsTrue (has set y) }
{}

/// A law on listings: that of a legal system's array is whole, where ports and cells have numbers of 64 bits.
pub fn whole_listings()
    ensures { (t : Timed) (a : Cells) → IsLegal t → IsArrayOf t a → length a.inputs ≤ 2 ^ 64
        → length a.outputs ≤ 2 ^ 64 → length a.cells ≤ 2 ^ 64 → IsWhole t a }
{}

/// A law on listings: a design with the whole listing of a legal system can be given every input.
pub fn presenting_streams()
    ensures { (t : Timed) (a : Cells) (d : Design) → IsLegal t → HasWholeListing t a d →
        (x : Assignment) → AreInputs (view_system t.flat) x → IsPresentable d x }
{}

/// A law on arrays: the placings of times, the cells, the links and the numbers of cycles and of operators
/// of a system are unique.
pub fn quantities_are_unique()
    ensures placings { (times : List Time) (a b : List Placing)
        → ArePlacings times a → ArePlacings times b → a ≡ b }
    ensures cells { (s : FlatSystem) (placings : List Placing) (a b : List Cell)
        → AreCells s placings a → AreCells s placings b → a ≡ b }
    ensures links { (s : FlatSystem)
        (hs : List Helper) (placings : List Placing) (cells : List Cell) (a b : List Link)
        → AreLinks s hs placings cells a → AreLinks s hs placings cells b → a ≡ b }
    ensures cycles { (s : FlatSystem) (times : List Time) (m n : ℕ)
        → IsCycleCount s times m → IsCycleCount s times n → m ≡ n }
    ensures operators { (s : FlatSystem) (placings : List Placing) (cells : List Cell) (m n : ℕ)
        → IsOperatorCount s placings cells m → IsOperatorCount s placings cells n → m ≡ n }
{}

/// A law on arrays: timed systems with the same system, times and helpers have the same faults.
pub fn same_systems_have_the_same_faults()
    ensures { (t u : Timed) → view_system t.flat ≡ view_system u.flat → t.times ≡ u.times
        → t.helpers ≡ u.helpers → (f : SpaceFault) → IsSpaceFault t f → IsSpaceFault u f }
{}
