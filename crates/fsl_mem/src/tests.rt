use crate::{Gap, Memory, PutAt, Source};
use fsl_view::View;
use std::alloc::{AllocError, Global};
use std::process::Abort;
use std::test::Fail;

/// The view that sees location 5 up to `to`.
fn view(alloc: Global, to: u64) -> Result<View, AllocError> {
    let mut view = View::new(alloc);
    view.raise(5, to)?;
    Ok(view)
}

/// Puts a message at location 5, with a view of its own.
fn put(
    rt: &impl Abort,
    alloc: Global,
    memory: &mut Memory,
    from: u64,
    to: u64,
) -> Result<PutAt, AllocError> {
    assert!(rt; memory.len() < 1000);
    let message_view = view(alloc, to)?;
    memory.put(5, Gap { from, to }, 7, 9, message_view)
}

#[test]
fn one_message_and_what_it_leaves(rt: HostRuntime) -> Result<(), Fail> {
    let mut memory = Memory::new(rt.alloc());
    memory.reserve(5)?;
    assert_eq!(rt;
        put(&rt, rt.alloc(), &mut memory, 1, 2)?,
        PutAt::Done { number: 0 }
    );
    assert_eq!(rt; put(&rt, rt.alloc(), &mut memory, 1, 2)?, PutAt::Taken);
    assert_eq!(rt; put(&rt, rt.alloc(), &mut memory, 3, 3)?, PutAt::Taken);
    assert_eq!(rt; memory.len(), 1);
    assert_eq!(rt; (memory.value(0), memory.event(0)), (7, 9));
    assert_eq!(rt; memory.gap(0), Gap { from: 1, to: 2 });
    assert_eq!(rt; memory.view_of(0).at(5), 2);
    assert!(rt; memory.is_bounded(5) && memory.loc(0) == 5);
    let room = memory.room_after(5, &Source::Message { number: 0 });
    assert_eq!(rt; room, Some(Gap { from: 2, to: 3 }));
    let sources = memory.readable(rt.alloc(), 5, &view(rt.alloc(), 2)?)?;
    assert_eq!(rt;
        sources.as_slice(),
        [Source::Message { number: 0 }].as_slice()
    );
    let places = memory.places(rt.alloc(), 5, &View::new(rt.alloc()))?;
    let top = (1 << 40) + 2;
    let want = [
        Gap { from: 0, to: 1 },
        Gap {
            from: top - 1,
            to: top,
        },
    ];
    assert_eq!(rt; places.as_slice(), want.as_slice());
    Ok(())
}

/// Puts messages of length 1 at location 5 that end at these numbers.
fn put_each(
    rt: &impl Abort,
    alloc: Global,
    memory: &mut Memory,
    ends: &[u64],
) -> Result<(), AllocError> {
    for to in ends {
        assert!(rt; *to > 0);
        assert!(rt; put(rt, alloc, memory, *to - 1, *to)? != PutAt::Taken);
    }
    Ok(())
}

/// The interval of length 1 that ends at `to`.
fn gap(rt: &impl Abort, to: u64) -> Gap {
    assert!(rt; to > 0);
    Gap { from: to - 1, to }
}

#[test]
fn sources_end_no_earlier_than_what_is_seen(rt: HostRuntime) -> Result<(), Fail> {
    let mut memory = Memory::new(rt.alloc());
    put_each(&rt, rt.alloc(), &mut memory, &[4, 1, 3, 7])?;
    let all = [
        Source::Nothing,
        Source::Message { number: 1 },
        Source::Message { number: 2 },
        Source::Message { number: 0 },
        Source::Message { number: 3 },
    ];
    for (seen, passed) in [
        (0, 0),
        (1, 1),
        (2, 2),
        (3, 2),
        (4, 3),
        (5, 4),
        (7, 4),
        (8, 5),
    ] {
        let sources = memory.readable(rt.alloc(), 5, &view(rt.alloc(), seen)?)?;
        assert_eq!(rt; sources.as_slice(), &all[passed..], "seen {seen}");
    }
    let elsewhere = memory.readable(rt.alloc(), 6, &view(rt.alloc(), 7)?)?;
    assert_eq!(rt; elsewhere.as_slice(), &all[..1]);
    Ok(())
}

// The gaps below the messages have room 0, 0, 1, 2 and 2^40.
#[test]
fn places_and_what_a_read_modify_write_may_take(rt: HostRuntime) -> Result<(), Fail> {
    let far = 8 + (1 << 40);
    let mut memory = Memory::new(rt.alloc());
    put_each(&rt, rt.alloc(), &mut memory, &[1, 2, 4, 7, far])?;
    let nothing = View::new(rt.alloc());
    assert!(rt; memory.is_bounded(5) && memory.is_bounded(6));
    let places = memory.places(rt.alloc(), 5, &nothing)?;
    let top = far + (1 << 40);
    let want = [
        gap(&rt, 3),
        gap(&rt, 5),
        gap(&rt, 7 + (1 << 39)),
        gap(&rt, top),
    ];
    assert_eq!(rt; places.as_slice(), want.as_slice());
    let above = memory.places(rt.alloc(), 5, &view(rt.alloc(), 3)?)?;
    assert_eq!(rt; above.as_slice(), &want[1..]);
    assert_eq!(rt; memory.room_after(5, &Source::Nothing), None);
    assert_eq!(rt; memory.room_after(6, &Source::Nothing), Some(gap(&rt, 1)));
    for (number, room) in [
        (0, None),
        (1, Some(gap(&rt, 3))),
        (2, Some(gap(&rt, 5))),
        (3, Some(gap(&rt, 8))),
        (4, Some(gap(&rt, far + 1))),
    ] {
        assert!(rt; memory.len() > number as usize && memory.loc(number) == 5);
        assert_eq!(rt;
            memory.room_after(5, &Source::Message { number }),
            room,
            "after {number}"
        );
    }
    Ok(())
}

#[test]
fn a_read_modify_write_closes_its_gap(rt: HostRuntime) -> Result<(), Fail> {
    let mut memory = Memory::new(rt.alloc());
    put_each(&rt, rt.alloc(), &mut memory, &[5])?;
    let source = Source::Message { number: 0 };
    assert!(rt; memory.is_bounded(5) && memory.len() == 1 && memory.loc(0) == 5);
    assert_eq!(rt; memory.room_after(5, &source), Some(gap(&rt, 6)));
    put_each(&rt, rt.alloc(), &mut memory, &[6])?;
    assert!(rt; memory.is_bounded(5) && memory.len() == 2 && memory.loc(0) == 5);
    assert_eq!(rt; memory.room_after(5, &source), None);
    Ok(())
}

#[test]
fn a_gap_halves_forty_times(rt: HostRuntime) -> Result<(), Fail> {
    let mut memory = Memory::new(rt.alloc());
    let nothing = View::new(rt.alloc());
    for turn in 0u32..41 {
        assert!(rt; memory.is_bounded(5));
        let to = memory
            .places(rt.alloc(), 5, &nothing)?
            .get(0)
            .map(|place| place.to);
        assert_eq!(rt; to, Some(1 << (40 - turn)));
        put(
            &rt,
            rt.alloc(),
            &mut memory,
            (1 << (40 - turn)) - 1,
            1 << (40 - turn),
        )?;
    }
    assert!(rt; memory.is_bounded(5));
    assert_eq!(rt;
        memory
            .places(rt.alloc(), 5, &nothing)?
            .get(0)
            .map(|place| place.to),
        Some(3)
    );
    Ok(())
}

const DATA: i64 = 1;

const FLAG: i64 = 2;

/// A thread writes at the last place of a location. A message that releases has what the thread has seen then.
fn write(
    rt: &impl Abort,
    memory: &mut Memory,
    alloc: Global,
    thread: &mut View,
    loc: i64,
    releases: bool,
) -> Result<(), AllocError> {
    assert!(rt; memory.is_bounded(loc) && memory.len() < 1000);
    let places = memory.places(alloc, loc, thread)?;
    let Some(gap) = places.as_slice().last() else {
        return Err(AllocError);
    };
    thread.raise(loc, gap.to)?;
    let message = if releases {
        thread.copy(alloc)?
    } else {
        View::new(alloc)
    };
    let put = memory.put(loc, *gap, 7, 0, message)?;
    assert!(rt; put != PutAt::Taken);
    Ok(())
}

/// A thread reads the last source of a location. A read that acquires has what the message has.
fn read(
    rt: &impl Abort,
    memory: &Memory,
    alloc: Global,
    thread: &mut View,
    loc: i64,
    acquires: bool,
) -> Result<(), AllocError> {
    let sources = memory.readable(alloc, loc, thread)?;
    let Some(Source::Message { number }) = sources.as_slice().last() else {
        return Err(AllocError);
    };
    assert!(rt; (*number as usize) < memory.len());
    thread.raise(loc, memory.gap(*number).to)?;
    if acquires {
        thread.join(memory.view_of(*number))?;
    }
    Ok(())
}

// One thread writes the data and then the flag; another reads the flag, and may then read the data or nothing.
#[test]
fn a_flag_passes_what_was_written_before_it(rt: HostRuntime) -> Result<(), Fail> {
    let alloc = rt.alloc();
    for (releases, acquires, sources) in [
        (true, true, 1),
        (true, false, 2),
        (false, true, 2),
        (false, false, 2),
    ] {
        let mut memory = Memory::new(alloc);
        let mut writer = View::new(alloc);
        write(&rt, &mut memory, alloc, &mut writer, DATA, false)?;
        write(&rt, &mut memory, alloc, &mut writer, FLAG, releases)?;
        let mut reader = View::new(alloc);
        read(&rt, &memory, alloc, &mut reader, FLAG, acquires)?;
        let data = memory.readable(alloc, DATA, &reader)?;
        assert_eq!(rt; data.len(), sources);
    }
    Ok(())
}
