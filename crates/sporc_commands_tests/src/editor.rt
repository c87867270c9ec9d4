//! The lines between the program and an editor.

mod asking;
mod telling;
