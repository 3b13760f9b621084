// What the draws of a test load choose (docs/LOADS.md): the first three its plan, the others its steps.
#![tactic(auto)]

mod plans;
mod steps;

pub use plans::{choose, faulty};
pub use steps::nth;
