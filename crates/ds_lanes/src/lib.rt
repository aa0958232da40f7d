//! Vector kernels over slices: the byte and stamp loops that a store spends its time in, several
//! elements to an instruction. They stand on `std::simd` alone, take no memory and refuse nothing.
//! Each goes over whole chunks by lanes, and over the rest by a last vector that overlaps the one
//! before it; a few bytes are left to a plain loop, and so are the first stamps, among which the
//! hit mostly is. Begin reading with `specs/Kernels.antt`, which says what each computes for every
//! length.
#![tactic(auto)]

mod columns;
mod complements;
mod masks;
mod prefixes;
mod zeros;

pub use columns::first_visible;
pub use complements::complement;
pub use prefixes::common_prefix;
pub use zeros::first_zero;
