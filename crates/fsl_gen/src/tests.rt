//! What no clause says: that there is memory for the largest program.
use crate::many;
use std::test::Fail;

#[test]
fn there_is_memory_for_a_thousand_pairs(rt: HostRuntime) -> Result<(), Fail> {
    let text = many(rt.alloc(), 1000)?;
    assert_eq!(rt; text.as_str().len(), 502733);
    Ok(())
}
