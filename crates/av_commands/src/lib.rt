//! The commands of the program `alphav`, each as the answer to an input and the sizes among its words.
#![tactic(auto)]

mod alpha_refusals;
mod bests;
mod checks;
mod demos;
mod eight;
mod emits;
mod lane_showing;
mod numbers;
mod puts;
mod refusals;
mod runs;
mod schedules;
mod showing;
mod sims;
mod simulation;
mod size_word;
mod sizes;
mod status;
mod streams;
mod tables;
mod unwaves;

pub use bests::best;
pub use checks::check;
pub use demos::demo;
pub use eight::run8;
pub use emits::emit;
pub use numbers::number_up_to;
pub use puts::put;
pub use runs::{Report, answer_run};
pub use schedules::schedule;
pub use showing::{Data, shown};
pub use sims::sim;
pub use size_word::is_size;
pub use status::Status;
pub use streams::stream;
pub use tables::table;
pub use unwaves::unwave;
