//! Frames and their bytes, and bytes that spell none.
mod frames;
mod no_frames;
mod spellings;
