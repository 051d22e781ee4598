//! The version of the program, in this one place.

/// The version, and below it the logic of the kits that prove it.
pub const VERSION: &str = "nova 0.1.0\nproved by logic dac8208d650f15bf";
