//! Runs of the program over memory.
mod runs;
