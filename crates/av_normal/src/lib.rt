//! Pieces: every variable of a flat system brought to its kept pieces, which show what the system shows.
#![tactic(auto)]

mod all_pieces;
mod bounded;
mod box_limit;
mod compose;
mod count;
mod distribute;
mod fault;
mod keep;
mod laws;
mod measure;
mod nonempty_pieces;
mod normal;
mod opposed;
mod outline;
mod piece;
mod reduction_sets;
mod sketch;

pub use box_limit::quantity_over;
pub use compose::prepend_map;
pub use fault::NormalFault;
pub use laws::{
    normal_forms_are_kept, normal_forms_are_proper, normal_forms_are_unique,
    normal_forms_show_the_same, one_solution_of_normal_forms,
};
pub use normal::Normal;
pub use opposed::are_contrary;
