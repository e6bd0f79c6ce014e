//! Data for a module, the lines that a run is told with, and those of a schedule and of an array.
#![tactic(auto)]

mod binding;
mod cycle;
mod data;
mod data_lines;
mod division;
mod entries;
mod fault;
mod forms;
mod input_ports;
mod inputs;
mod laws;
mod lines;
mod missing;
mod pieces;
mod reader;
mod result;
mod schedule;
mod sets;
mod spelling;
mod stimulus;
mod table;
mod timeline;
mod whole;
mod word_map;

pub use cycle::write_cycle;
pub use data::read_data;
pub use division::{Division, divide};
pub use fault::DataFault;
pub use inputs::Inputs;
pub use laws::{data_have_one_fault, stimuli_have_one_fault};
pub use result::write_result;
pub use schedule::write_schedule;
pub use sets::{DataSet, data_sets};
pub use stimulus::{Given, Stimulus, read_stimulus};
pub use table::{write_table, write_totals};
pub use timeline::Timeline;
