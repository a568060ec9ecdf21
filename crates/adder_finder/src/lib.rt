//! XOR shapes, and the final stage of a multiplier that ends with an adder.
//!
//! `xor_of` gives the shape of a gate exactly where it is an exclusive or over two gates (`some`, `none`);
//! `final_stage` the fit cut with the least low column, or none exactly where no cut is fit. `xor_of` takes no memory,
//! and the only other answer of `final_stage` is out of memory.
//!
//! A gate of *XOR shape* is the exclusive or of its two *sides*, over two gates of which one *generates*; that one's
//! operands are its *pair* (`specs/XorShape.antt`). A cut is *fit* by what the outputs from its low column on are,
//! without proof that it may be made (`specs/FinalStage.antt`). A law is the contract of a public function with an
//! empty body: XOR shapes are exclusive ors, there is at most one final stage, and a fit cut is a cut.
#![tactic(auto)]

mod cover;
mod laws;
mod stage;
mod walk;
mod xor;

pub use laws::{final_stage_is_one, fit_is_cut, xor_shape_is_xor};
pub use stage::final_stage;
pub use xor::{Xor, xor_of};
