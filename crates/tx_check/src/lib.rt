//! The shape of a transaction: what can be said of it before any object is looked at.
//!
//! [`check_shape`] answers the least of the twelve faults of shape that apply, or none; what it
//! promises is one equation by the definition of the shape. Its time is linear in the transaction.
//! [`named_id`] is the id that an input names, and [`repeats_object`] says whether two objects of a list have one id.
#![tactic(auto)]

mod arguments;
mod commands;
mod fault;
mod ids;
mod inputs;
mod length;
mod shape;

pub use ids::{named_id, repeats_object};
pub use shape::{ShapeRefusal, check_shape};
