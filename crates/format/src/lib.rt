// ESRI's paper in code: lengths in words and in bytes, the fourteen kinds of shape, and how long a shape's content is.
#![tactic(auto)]

pub mod kinds;
pub mod lengths;
pub mod shapes;
pub mod units;
