use crate::View;
use std::test::Fail;

#[test]
fn keeps_the_greater_at_each_location(rt: HostRuntime) -> Result<(), Fail> {
    let mut view = View::new(rt.alloc());
    view.reserve(4)?;
    for (loc, to) in [(7, 3), (-2, 9), (i64::MAX, 1), (7, 2), (i64::MIN, u64::MAX)] {
        view.raise(loc, to)?;
    }
    let mut other = View::new(rt.alloc());
    for (loc, to) in [(0, 5), (7, 4), (-2, 1)] {
        other.raise(loc, to)?;
    }
    let before = view.copy(rt.alloc())?;
    view.join(&other)?;
    for (loc, was, is) in [
        (i64::MIN, u64::MAX, u64::MAX),
        (-2, 9, 9),
        (0, 0, 5),
        (1, 0, 0),
        (7, 3, 4),
        (i64::MAX, 1, 1),
    ] {
        assert_eq!(rt; before.at(loc), was, "before, at {loc}");
        assert_eq!(rt; view.at(loc), is, "after, at {loc}");
    }
    Ok(())
}

#[test]
fn changes_in_place_where_room_was_made(rt: HostRuntime) -> Result<(), Fail> {
    let mut other = View::new(rt.alloc());
    other.raise(7, 4)?;
    other.raise(0, 5)?;
    let mut view = View::new(rt.alloc());
    view.raise(7, 3)?;
    assert_eq!(rt; view.len(), 1);
    view.reserve_more(3)?;
    assert_eq!(rt; other.len(), 2);
    view.raise_reserved(-2, 9);
    view.join_reserved(&other);
    assert_eq!(rt; view.len(), 3);
    for (loc, is) in [(-2, 9), (0, 5), (1, 0), (7, 4)] {
        assert_eq!(rt; view.at(loc), is, "at {loc}");
    }
    Ok(())
}
