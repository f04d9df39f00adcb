//! The functions of the C library that native code may call: the one table of their numbers, names and places.
//! What a call of one comes to is said where it is done.
#![tactic(auto)]

mod functions;
pub mod laws;

pub use functions::{
    HostFunction, function_number, host_function, host_name, host_place, number_at, number_named,
    place_named,
};
