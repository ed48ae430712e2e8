//! The version of the program.

/// The program's own version, and the kit of the toolchain that it was made with. `./mmdetect` reads it here.
pub const VERSION: &str = "0.2.0, rattle-kit-13f";
