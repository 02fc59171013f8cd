//! The integer plane of a drawing: points, lists of points, segments that touch and points within
//! polygons.
//!
//! All coordinates are whole units of resolution from -2147483648 to 2147483647, and every answer is
//! exact: products of differences are taken in 128 bits.
#![tactic(auto)]

pub mod laws;
mod orientation;
mod point_list;
mod polygon;
mod pt;
mod pt_list;
mod segments;

pub use orientation::side;
pub use point_list::PointList;
pub use polygon::within;
pub use pt::Pt;
pub use pt_list::PtList;
pub use segments::touch;
