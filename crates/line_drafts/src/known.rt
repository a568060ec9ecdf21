// Live lines with their polynomials.
use poly_terms::Poly;

/// A live line's id, and its polynomial.
#[derive(Debug, Drop)]
pub(crate) struct Known {
    pub(crate) id: u64,
    pub(crate) poly: Poly,
}
