// What a line of a certificate is to be made of.

/// A line that is to be written: the sum of known lines, each times a factor.
///
/// A part is the place of a known line and a sum of coefficients times variables. The places are those of the gates'
/// axioms, in the order of the gates' list, then those of the replaced columns', from the lowest column on, and then
/// those of the lines that were written for the drafts before this one. The lines' ids have to rise from part to part,
/// and no factor may be 0.
#[derive(Debug, Drop)]
pub struct Draft {
    pub parts: Vec<(usize, Vec<(u128, Vec<u32>)>)>,
}
