//! Flat systems: variables by number, domains as rows, expressions as pieces; what they mean and show, and
//! passes from one system to another that shows the same. The definitions stand in `specs/`.
#![tactic(auto)]

mod copy;
mod direction;
mod flat;
mod laws;
mod nodes;
mod numbers;
mod pass;
mod quantity;
mod sites;
mod then;
mod timed;
mod tree;

pub use copy::{copy_flat, copy_map, copy_pieces, copy_tree};
pub use direction::{along_of, first_moving, moves, prepend_all, sign_vectors};
pub use flat::{Flat, Kind, Piece, Var};
pub use laws::{
    counted_pieces, counted_word, nodes_have_points, number_of_pieces, one_solution, one_word,
    points_of_sets, unhelped_systems_show_the_same, unreduced_is_chained, words_of_pieces,
};
pub use nodes::{Nodes, variable_of};
pub use numbers::{Node, SiteNumber, VariablePlace};
pub use pass::{Feeds, Meant, Pass};
pub use quantity::Quantity;
pub use sites::{ReadingPlace, Reference, piece_places, tree_places, tree_references};
pub use then::{Then, ThenFault};
pub use timed::{Helper, Reach, Time, Timed};
pub use tree::{Choice, Tree};
