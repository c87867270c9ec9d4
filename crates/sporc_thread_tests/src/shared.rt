//! The shared client of `sporc_shared`, its session, and a fetch.

mod fetching;
mod meeting;
mod order_link;
mod scene;
mod session_faults;
mod sessions;
mod staging;
mod two_passes;
