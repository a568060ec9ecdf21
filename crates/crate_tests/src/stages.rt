// adder_finder: the final stages of made multipliers.
use adder_finder::final_stage;
use graph_maker::{Adder, Kind, make};
use ripple_graft::Cut;
use std::test::Fail;

// The low column and the number of pairs.
fn extent(stage: &Option<Cut>) -> Option<(u32, usize)> {
    match stage {
        Some(cut) => Some((cut.lo, cut.pairs.as_slice().len())),
        None => None,
    }
}

const ALL: [Adder; 3] = [Adder::Ripple, Adder::Kogge, Adder::Sklansky];

const PREFIX: [Adder; 2] = [Adder::Kogge, Adder::Sklansky];

const STAGES: [(&str, Kind, u32, &[Adder], Option<(u32, usize)>); 10] = [
    ("one bit", Kind::Array, 1, &ALL, None),
    ("one bit", Kind::Dadda, 1, &ALL, None),
    (
        "two half adders",
        Kind::Array,
        2,
        &[Adder::Ripple],
        Some((2, 1)),
    ),
    (
        "the last sum is no exclusive or",
        Kind::Array,
        2,
        &PREFIX,
        None,
    ),
    (
        "two half adders",
        Kind::Dadda,
        2,
        &[Adder::Ripple],
        Some((2, 1)),
    ),
    (
        "the last sum is no exclusive or",
        Kind::Dadda,
        2,
        &PREFIX,
        None,
    ),
    ("three bits", Kind::Array, 3, &ALL, Some((2, 3))),
    ("three bits", Kind::Dadda, 3, &ALL, Some((1, 4))),
    ("four bits", Kind::Array, 4, &ALL, Some((3, 4))),
    ("four bits", Kind::Dadda, 4, &ALL, Some((1, 6))),
];

#[test]
fn made_multipliers_end_with_their_adder(rt: HostRuntime) -> Result<(), Fail> {
    for &(shows, kind, bits, adders, due) in &STAGES {
        assert!(rt; 1 <= bits && bits <= 64);
        for &adder in adders {
            let graph = make(rt.alloc(), kind, bits, adder)?;
            let stage = final_stage(rt.alloc(), &graph)?;
            assert!(rt; extent(&stage) == due, "{shows}");
        }
    }
    Ok(())
}
