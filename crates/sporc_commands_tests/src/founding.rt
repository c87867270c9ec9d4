//! Keys and foundings.

mod chances;
mod failing;
mod files;
mod ring_files;
mod room;
