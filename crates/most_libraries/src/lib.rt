//! Nothing but the libraries that no other library uses, except for `pair_trim` and `joint_prover`: whoever proves this
//! crate proves all libraries but these two, side by side.
#![tactic(auto)]
