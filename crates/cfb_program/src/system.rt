//! What the program needs of the system.
use std::fs::File;
use std::random::RandomSource;
use std::rt::Files;

/// Files, memory, and bytes that nobody can foresee: compound files are opened with a seed of these.
pub trait System: Files<File = File> + AllocGlobal + RandomSource {}

impl<T: Files<File = File> + AllocGlobal + RandomSource> System for T {}
