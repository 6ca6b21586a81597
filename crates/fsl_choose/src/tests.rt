use crate::{Choose, Listed, Newest, Seeded};
use fsl_base::List;
use std::test::Fail;

#[test]
fn newest_picks_the_last(rt: HostRuntime) {
    let mut newest = Newest;
    for (n, want) in [(1, 0), (2, 1), (u32::MAX, u32::MAX - 1)] {
        assert_eq!(rt; newest.pick(n), want, "of {n}");
    }
}

#[test]
fn listed_picks_its_list_and_then_nought(rt: HostRuntime) -> Result<(), Fail> {
    let mut listed = Listed::new(List::from_slice(rt.alloc(), &[5, 0, 7])?);
    for (n, want) in [(3, 2), (1, 0), (8, 7), (9, 0), (9, 0)] {
        assert_eq!(rt; listed.pick(n), want, "of {n}");
    }
    Ok(())
}

// The first line is the demonstration of PCG's reference C code; the others were computed by that
// code's two functions, seed and next. No word is the modulus, so each shows whole.
#[test]
fn seeded_picks_the_reference_words(rt: HostRuntime) {
    for (seed, worker, words) in [
        (42, 54, [0xa15c02b7, 0x7b47f409, 0xba1d3330]),
        (0, 0, [0xe4c14788, 0x379c6516, 0x5c4ab3bb]),
        (0, 1, [0x0f5deba9, 0x184296dd, 0x357643f4]),
        (42, 0, [0x21b756ee, 0xc15ef750, 0x9548a9bd]),
        (42, 1, [0x4df1ccf9, 0xe5838752, 0x58ed9e10]),
        (0xffffffff, 0, [0x85c956c0, 0xb88786d1, 0x4cb8f16b]),
        (0xffffffff, 1, [0x4e563271, 0x1235970d, 0x06242b0c]),
    ] {
        let mut seeded = Seeded::new(seed, worker);
        for word in words {
            assert_eq!(rt; seeded.pick(u32::MAX), word, "seed {seed}, worker {worker}");
        }
    }
}
