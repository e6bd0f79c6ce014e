//! What becomes of texts: the equations of a serial form at some points, the points of its chains, and faults.

mod faults;
mod forms;
mod passes;
mod show;
mod texts;
