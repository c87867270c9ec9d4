//! Lines of members.

mod examined;
mod reading;
mod refusals;
mod saved;
mod scene;
