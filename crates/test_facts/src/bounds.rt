//! Least walks, the edges that close one below 0, and marks.
use fsl_bounds::{Added, Bounds};

/// The least walk from 1 to 3, and the edge back that closes it below 0.
#[test]
fn least_walks(rt: HostRuntime) {
    let alloc = rt.alloc();
    let mut bounds = Bounds::new(alloc).expect(&rt, "memory");
    assert_eq!(rt; bounds.nodes(), 1, "node 0 alone");
    assert!(rt; bounds.row(0) == [Some(0)].as_slice(), "its row");
    assert!(rt; bounds.add(alloc, 2, 3, 4) == Ok(Added::Feasible), "2 to 3");
    assert!(rt; bounds.add(alloc, 1, 2, 3) == Ok(Added::Feasible), "1 to 2");
    assert_eq!(rt; bounds.least(1, 3), Some(7), "from 1 to 3");
    assert_eq!(rt; bounds.nodes(), 4, "nodes 0 to 3");
    assert!(rt;
        bounds.row(1) == [None, Some(0), Some(3), Some(7)].as_slice(),
        "the row of 1"
    );
    assert!(rt; bounds.add(alloc, 3, 1, -8) == Ok(Added::Infeasible), "-8");
    assert_eq!(rt; bounds.least(3, 1), None, "no walk back");
    assert!(rt; bounds.add(alloc, 3, 1, -7) == Ok(Added::Feasible), "-7");
    assert_eq!(rt; bounds.least(3, 2), Some(-4), "from 3 to 2");
}

/// A mark keeps what was there, and a copy has no part in it.
#[test]
fn marks_are_put_back(rt: HostRuntime) {
    let alloc = rt.alloc();
    let mut bounds = Bounds::new(alloc).expect(&rt, "memory");
    let _ = bounds.add(alloc, 0, 1, 5).expect(&rt, "memory");
    bounds.mark(alloc).expect(&rt, "memory");
    let _ = bounds.add(alloc, 0, 1, 3).expect(&rt, "memory");
    bounds.mark(alloc).expect(&rt, "memory");
    let _ = bounds
        .add(alloc, 1, 512, 2475880078570760549798248448)
        .expect(&rt, "memory");
    let copy = bounds.copy(alloc).expect(&rt, "memory");
    assert_eq!(rt; bounds.nodes(), 513, "all nodes");
    bounds.back();
    assert_eq!(rt; bounds.least(0, 1), Some(3), "after the first mark");
    assert_eq!(rt; bounds.least(1, 512), None, "512 was not there");
    assert_eq!(rt; bounds.nodes(), 2, "nodes 0 and 1");
    bounds.back();
    assert_eq!(rt; bounds.least(0, 1), Some(5), "before the first mark");
    assert_eq!(rt;
        copy.least(0, 512),
        Some(2475880078570760549798248451),
        "the copy"
    );
}
