//! Texts and their deltas.

mod chunks;
mod deltas;
mod forms;
mod screens;
mod transforms;
