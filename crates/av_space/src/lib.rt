//! Where and when the computations of a scheduled system stand: processing elements, links with delays, ports, and the
//! listing of where each input point is presented and each computed point is shown.
#![tactic(auto)]

mod alike;
mod apart;
mod array;
mod cells;
mod cycles;
mod fault;
mod input_site;
mod laws;
mod laying;
mod layout;
mod lengths;
mod lines;
mod linking;
mod locate;
mod mapping;
mod numbers;
mod operators;
mod origin;
mod placement;
mod placing;
mod points;
mod ports;
mod ranked;
mod reading;
mod runs;
mod scheduled;
mod shown;
mod spots;
mod stretch;
mod tap;
mod tapping;
mod timed_nodes;

pub use array::Array;
pub use cells::{Cell, Cells, InPort, Link};
pub use fault::SpaceFault;
pub use laws::{
    between_points, coordinates_have_inverses, one_point, presenting_streams,
    quantities_are_unique, same_systems_have_the_same_faults, whole_listings,
};
pub use laying::lay_out;
pub use layout::{Layout, Slot};
pub use lengths::DelayLine;
pub use mapping::{map, map_layout};
pub use numbers::CellNumber;
pub use origin::Origin;
pub use spots::{Ends, Site, Spot, ends_of};
pub use stretch::TapReading;
pub use tap::Pipeline;
