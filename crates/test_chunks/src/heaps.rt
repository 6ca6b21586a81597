//! A few chunks and facts, and the calls that find, add, take out and assume.
ghost use Rattle.std.specs.Prelude.{◌≡◌, ◌<◌, Some, IfOk, length, slice_get};
ghost use Rattle.std.specs.Option.{option_map};
ghost use Rattle.fsl_core.specs.declared.mode.Rung.TheVariants.{Plain};
ghost use Rattle.fsl_chunk.specs.Kind.{kind_of, rung_of};
ghost use Rattle.fsl_chunk.specs.declared.kind.ChunkKind.TheVariants.{Points};

use fsl_chunk::{ChunkKind, Env, Heap, HeapFault, Made, State, Want, Went};
use fsl_core::{Chunk, Kind, Rung};
use fsl_lin::{Lin, LinFault, Sym};
use std::alloc::{AllocError, Global};

fn known(made: Result<Lin, LinFault>) -> Result<Lin, AllocError> {
    match made {
        Ok(lin) => Ok(lin),
        Err(_) => Err(AllocError),
    }
}

fn number(alloc: Global, n: i128) -> Result<Lin, AllocError> {
    known(Lin::constant(alloc, n))
}

fn cell(alloc: Global, at: i128, share: i128) -> Result<Chunk, AllocError>
    ensures kind { IfOk result (λ c. kind_of c ≡ Points) }
    ensures rung { IfOk result (λ c. rung_of c ≡ Plain) }
{
    let at = number(alloc, at)?;
    let share = number(alloc, share)?;
    Ok(Chunk::Points {
        rung: Rung::Plain,
        at,
        share,
        value: None,
    })
}

fn add_cell(alloc: Global, heap: &mut Heap, at: i128, share: i128) -> Result<(), HeapFault> {
    let cell = cell(alloc, at, share)?;
    heap.add(alloc, cell)
}

fn add_init(alloc: Global, heap: &mut Heap, at: i128) -> Result<(), HeapFault> {
    let at = number(alloc, at)?;
    let rung = Rung::Plain;
    heap.add(alloc, Chunk::Init { rung, at })
}

// Cells at 1, 2 and 1, and an `Init` before the last of them.
fn owned(alloc: Global) -> Result<Heap, HeapFault> {
    let mut heap = Heap::new(alloc)?;
    add_cell(alloc, &mut heap, 1, 5)?;
    add_cell(alloc, &mut heap, 2, 5)?;
    add_init(alloc, &mut heap, 1)?;
    add_cell(alloc, &mut heap, 1, 9)?;
    Ok(heap)
}

// The last number in a list of the heap, and of a copy that was made before the oldest chunk was taken out.
fn last_listed(alloc: Global, kind: ChunkKind) -> Result<(Option<u32>, Option<u32>), HeapFault> {
    let mut heap = owned(alloc)?;
    let before = heap.fork(alloc)?;
    if heap.len() > 0 {
        let _oldest = heap.remove(0);
    }
    let now = heap.numbers_of(kind, Rung::Plain).last().copied();
    let was = before.numbers_of(kind, Rung::Plain).last().copied();
    Ok((now, was))
}

#[test]
fn lists_the_chunks_of_a_kind(rt: HostRuntime) -> Result<(), HeapFault> {
    let alloc = rt.alloc();
    assert_eq!(rt; last_listed(alloc, ChunkKind::Points)?, (Some(2), Some(3)));
    assert_eq!(rt; last_listed(alloc, ChunkKind::Init)?, (Some(1), Some(2)));
    assert_eq!(rt; last_listed(alloc, ChunkKind::Tok)?, (None, None));
    Ok(())
}

fn with_cell(alloc: Global, state: State, at: i128, share: i128) -> Result<State, AllocError> {
    let cell = cell(alloc, at, share)?;
    match state.add(alloc, cell)? {
        Went::Goes { state } => Ok(state),
        _ => Err(AllocError),
    }
}

// A state that owns cells at 1, 2 and 1.
fn state_with_cells(alloc: Global) -> Result<State, AllocError> {
    let state = State::new(alloc, Env::new(alloc))?;
    let state = with_cell(alloc, state, 1, 5)?;
    let state = with_cell(alloc, state, 2, 5)?;
    with_cell(alloc, state, 1, 9)
}

fn found_at(alloc: Global, at: i128) -> Result<Option<u32>, AllocError> {
    let state = state_with_cells(alloc)?;
    let at = number(alloc, at)?;
    let rung = Rung::Plain;
    Ok(state.find(&Want::Points { rung, at: &at }))
}

fn found_with(alloc: Global, at: i128, share: i128) -> Result<Option<u32>, AllocError> {
    let state = state_with_cells(alloc)?;
    let at = number(alloc, at)?;
    let share = number(alloc, share)?;
    Ok(state.find(&Want::Enough {
        rung: Rung::Plain,
        at: &at,
        share: &share,
    }))
}

#[test]
fn finds_the_first_chunk_that_fits(rt: HostRuntime) -> Result<(), AllocError> {
    let alloc = rt.alloc();
    assert_eq!(rt; found_at(alloc, 1)?, Some(0));
    assert_eq!(rt; found_at(alloc, 3)?, None);
    assert_eq!(rt; found_with(alloc, 1, 7)?, Some(2));
    Ok(())
}

// What came of it: 0 goes on, 1 no branch, 2 `term`, 3 another kind.
fn came(went: &Went) -> u32 {
    match went {
        Went::Goes { .. } => 0,
        Went::Infeasible => 1,
        Went::Fails { kind: Kind::Term } => 2,
        Went::Fails { .. } => 3,
    }
}

// A state that knows of its one symbol that it is less than 3.
fn below_three(alloc: Global) -> Result<Went, AllocError> {
    let state = State::new(alloc, Env::new(alloc))?;
    match state.new_symbol(alloc)? {
        Made::Goes { state, symbol } => {
            let three = number(alloc, 3)?;
            state.assume_at_most(alloc, &symbol, 1, &three)
        }
        Made::Fails { kind } => Ok(Went::Fails { kind }),
    }
}

// What comes of assuming that the symbol is n.
fn equal_to(alloc: Global, n: i128) -> Result<u32, AllocError> {
    let Went::Goes { state } = below_three(alloc)? else {
        return Err(AllocError);
    };
    let symbol = known(Lin::symbol(alloc, Sym(0)))?;
    let n = number(alloc, n)?;
    let went = state.assume_equal(alloc, &symbol, &n)?;
    Ok(came(&went))
}

#[test]
fn assumes_until_the_facts_are_absurd(rt: HostRuntime) -> Result<(), AllocError> {
    let alloc = rt.alloc();
    assert_eq!(rt; equal_to(alloc, 2)?, 0);
    assert_eq!(rt; equal_to(alloc, 3)?, 1);
    Ok(())
}

fn rest_of(term: Option<&Lin>) -> Option<i128> {
    match term {
        Some(term) => Some(term.rest()),
        None => None,
    }
}

// A variable that was set to 4, and the same one of a copy that was made before.
fn set_to_four(alloc: Global) -> Result<(Option<i128>, Option<i128>), AllocError> {
    let mut env = Env::new(alloc);
    env.push(alloc, number(alloc, 0)?)?;
    let before = env.fork(alloc)?;
    env.set(alloc, 0, number(alloc, 4)?)?;
    Ok((rest_of(env.get(0)), rest_of(before.last())))
}

#[test]
fn sets_a_variable_of_one_copy(rt: HostRuntime) -> Result<(), AllocError> {
    let alloc = rt.alloc();
    assert_eq!(rt; set_to_four(alloc)?, (Some(4), Some(0)));
    Ok(())
}

// How many shares a chunk is, where it is a cell.
fn share_of(chunk: &Chunk) -> Option<i128> {
    match chunk {
        Chunk::Points { share, .. } => Some(share.rest()),
        _ => None,
    }
}

fn first_share(heap: &Heap) -> Option<i128> {
    if heap.len() > 0 {
        share_of(heap.at(0))
    } else {
        None
    }
}

// The shares of a heap's only cell once it was replaced, and in a copy that was made before.
fn replaced(alloc: Global) -> Result<(Option<i128>, Option<i128>), HeapFault> {
    let mut heap = Heap::new(alloc)?;
    let old = cell(alloc, 1, 5)?;
    heap.add(alloc, old)?;
    let before = heap.fork(alloc)?;
    let by = cell(alloc, 1, 7)?;
    heap.replace(alloc, 0, by)?;
    Ok((first_share(&heap), first_share(&before)))
}

#[test]
fn replaces_a_chunk_of_one_copy(rt: HostRuntime) -> Result<(), HeapFault> {
    let alloc = rt.alloc();
    assert_eq!(rt; replaced(alloc)?, (Some(7), Some(5)));
    Ok(())
}

// A state with one variable, which is 0, and a cell of 5 shares.
fn small(alloc: Global) -> Result<State, AllocError>
    ensures some { IfOk result (λ s. 0 < length s.chunks) }
    ensures kind { IfOk result (λ s. option_map kind_of (slice_get s.chunks 0) ≡ Some Points) }
    ensures rung { IfOk result (λ s. option_map rung_of (slice_get s.chunks 0) ≡ Some Plain) }
{
    let mut env = Env::new(alloc);
    env.push(alloc, number(alloc, 0)?)?;
    let state = State::new(alloc, env)?;
    let cell = cell(alloc, 1, 5)?;
    match state.add(alloc, cell)? {
        Went::Goes { state } => Ok(state),
        _ => Err(AllocError),
    }
}

// What is done to a state.
#[derive(Clone, Copy)]
enum Change {
    Put,
    Take,
    DropChunks,
    Set { slot: u32 },
    SetEnv,
}

// What is seen of a state: how many chunks, the shares of the first, and the last variable.
fn seen(state: &State) -> (u32, Option<i128>, Option<i128>) {
    let heap = state.heap();
    (heap.len(), first_share(heap), rest_of(state.env().last()))
}

fn changed(alloc: Global, state: State, change: Change) -> Result<State, AllocError>
    requires some { 0 < length state.chunks }
    requires kind { option_map kind_of (slice_get state.chunks 0) ≡ Some Points }
    requires rung { option_map rung_of (slice_get state.chunks 0) ≡ Some Plain }
{
    let mut state = state;
    match change {
        Change::Put => state.put(alloc, 0, cell(alloc, 1, 7)?)?,
        Change::Take => {
            let _taken = state.take(0);
        }
        Change::DropChunks => state.drop_chunks(alloc)?,
        Change::Set { slot } => state.set(alloc, slot, number(alloc, 4)?)?,
        Change::SetEnv => state.set_env(Env::new(alloc)),
    }
    Ok(state)
}

#[test]
fn changes_one_copy_of_a_state(rt: HostRuntime) -> Result<(), AllocError> {
    let alloc = rt.alloc();
    for (change, wanted) in [
        (Change::Put, (1, Some(7), Some(0))),
        (Change::Take, (0, None, Some(0))),
        (Change::DropChunks, (0, None, Some(0))),
        (Change::Set { slot: 0 }, (1, Some(5), Some(4))),
        (Change::Set { slot: 1 }, (1, Some(5), Some(0))),
        (Change::SetEnv, (1, Some(5), None)),
    ] {
        let before = small(alloc)?;
        let state = before.fork(alloc)?;
        let after = changed(alloc, state, change)?;
        assert_eq!(rt; seen(&after), wanted);
        assert_eq!(rt; seen(&before), (1, Some(5), Some(0)));
    }
    Ok(())
}

fn taken(alloc: Global) -> Result<Option<i128>, AllocError> {
    let mut state = small(alloc)?;
    Ok(share_of(state.take(0).get()))
}

#[test]
fn gives_the_chunk_that_it_takes(rt: HostRuntime) -> Result<(), AllocError> {
    let alloc = rt.alloc();
    assert_eq!(rt; taken(alloc)?, Some(5));
    Ok(())
}
