// What the reading of lines needs to know.
ghost use Rattle.std.specs.Prelude.{◌≤◌};

use std::alloc::Global;

// How the lines of a certificate of a version are read: over the variables 1 to `max`, modulo 2^exponent.
#[derive(Clone, Copy)]
pub(crate) struct PacReader {
    pub(crate) alloc: Global,
    pub(crate) exponent: u32,
    pub(crate) max: u32,
    pub(crate) version: u8,
    ghost exponent_in_range: { (1 ≤ exponent) × (exponent ≤ 128) },
}
