//! The state of a path: the terms of its variables, what is assumed, and what is owned. Calls that may end the
//! path take the state by value, and nothing of it is left for want of memory.
ghost use Rattle.std.specs.Prelude.{◌≡◌, ◌<◌, ◌^◌, [], ◌∷◌, Some, pos, false, length, remove, slice_get, slice_set, if◌then◌else◌, IfOk, IfSome, OnOk, OnErr};
ghost use Rattle.std.specs.Option.{option_map};
ghost use Rattle.fsl_lin.specs.Facts.{absurd_facts};
ghost use Rattle.fsl_lin.specs.Sizes.{IsSize};
ghost use Rattle.fsl_lin.specs.declared.fact.Fact.TheVariants.{Le, Is};
ghost use Rattle.fsl_core.specs.logic.States.{goes, new_symbol, set};
ghost use Rattle.fsl_core.specs.logic.Deciding.{proves_at_most, proves_equal, assume, assume_at_most, assume_equal};
ghost use Rattle.fsl_core.specs.logic.Chunks.{add};
ghost use Rattle.fsl_chunk.specs.Went.{branches, branches_made};
ghost use Rattle.fsl_chunk.specs.Kind.{kind_of, rung_of};
ghost use Rattle.fsl_chunk.specs.Fits.{sought};

use crate::env::Env;
use crate::fault::HeapFault;
use crate::heap::Heap;
use crate::want::Want;
use crate::went::{Made, Went};
use fsl_core::{Chunk, Kind};
use fsl_lin::{Lin, LinFault};
use fsl_pure::{Pure, PureFault, Shared, gap_between};
use std::alloc::{AllocError, Global};
use std::marker::Model;

/// The state of a path, whose facts don't contradict each other.
#[derive(Drop)]
pub struct State {
    env: Env,
    pure: Pure,
    heap: Heap,
}

impl Model for State {
    ghost use Rattle.std.specs.Prelude.{◌≡◌, false};
    ghost use Rattle.fsl_lin.specs.Facts.{absurd_facts};
    ghost use Rattle.fsl_core.specs.logic.States as states;

    ghost Value = { states.State };

    ghost view = { λ s. record { env = s.env; facts = s.pure.facts; chunks = s.heap; next = s.pure.symbols } };

    ghost invariant = { λ s. absurd_facts s.pure.facts ≡ false };
}

impl State {
    /// A state with these variables that knows and owns nothing.
    pub fn new(alloc: Global, env: Env) -> Result<State, AllocError>
        ensures { IfOk result (λ s. s ≡ record { env = env; facts = []; chunks = []; next = 0 }) }
    {
        Ok(State {
            env,
            pure: Pure::new(alloc)?,
            heap: Heap::new(alloc)?,
        })
    }

    /// The terms of the procedure's variables.
    pub fn env(&self) -> &Env
        ensures { result.now ≡ self.now.env }
    {
        &self.env
    }

    /// What is assumed.
    pub fn pure(&self) -> &Pure
        ensures facts { result.now.facts ≡ self.now.facts }
        ensures clear { absurd_facts self.now.facts ≡ false }
    {
        &self.pure
    }

    /// What is owned.
    pub fn heap(&self) -> &Heap
        ensures { result.now ≡ self.now.chunks }
    {
        &self.heap
    }

    /// Whether a + gap <= b is proved, for a gap of at most 2^90 in size. It takes no memory.
    pub fn proves_at_most(&self, a: &Lin, gap: i128, b: &Lin) -> bool
        requires { IsSize (2 ^ 90) gap }
        ensures { result ≡ proves_at_most self.now.facts a.now gap b.now }
    {
        self.pure.proves_le(a, b, gap)
    }

    /// Whether a = b is proved. It takes no memory.
    pub fn proves_equal(&self, a: &Lin, b: &Lin) -> bool
        ensures { result ≡ proves_equal self.now.facts a.now b.now }
    {
        self.pure.proves_eq(a, b)
    }

    /// The number of the first chunk that fits. It takes no memory.
    pub fn find(&self, want: &Want<'_, '_>) -> Option<u32>
        ensures first { result ≡ sought want.now self.now.facts self.now.chunks }
        ensures within { IfSome result (λ number. number < length self.now.chunks) }
    {
        self.heap.find(&self.pure, want)
    }

    /// Gives a variable a term, where there is such a variable. For want of memory nothing changes.
    pub fn set(&mut self, alloc: Global, slot: u32, term: Lin) -> Result<(), AllocError>
        ensures set { OnOk result (set slot term self.old ≡ goes tt self.new ∷ []) }
        ensures kept { OnErr result (self.new ≡ self.old) }
    {
        self.env.set(alloc, slot, term)
    }

    /// Puts other variables in the place of the procedure's.
    pub fn set_env(&mut self, env: Env)
        ensures { self.new ≡ record self.old { env = env } }
    {
        self.env = env;
    }

    /// Lets go of all chunks. For want of memory nothing changes.
    pub fn drop_chunks(&mut self, alloc: Global) -> Result<(), AllocError>
        ensures dropped { OnOk result (self.new ≡ record self.old { chunks = [] }) }
        ensures kept { OnErr result (self.new ≡ self.old) }
    {
        self.heap = Heap::new(alloc)?;
        Ok(())
    }

    /// A new symbol.
    pub fn new_symbol(self, alloc: Global) -> Result<Made, AllocError>
        ensures { IfOk result (λ made. branches_made made ≡ new_symbol self) }
    {
        let State { env, pure, heap } = self;
        let mut pure = pure;
        match pure.fresh() {
            Ok(sym) => match Lin::symbol(alloc, sym) {
                Ok(symbol) => Ok(Made::Goes {
                    state: State { env, pure, heap },
                    symbol,
                }),
                Err(_no_memory) => Err(AllocError),
            },
            Err(_full) => Ok(Made::Fails {
                kind: Kind::Symbols,
            }),
        }
    }

    /// Assumes that a term is at most 0.
    pub fn assume_le(self, alloc: Global, t: &Lin) -> Result<Went, AllocError>
        ensures { IfOk result (λ went. branches went ≡ assume (Le t.now) self) }
    {
        let State { env, pure, heap } = self;
        let mut pure = pure;
        let _width = t.width();
        match pure.assume_le(alloc, t) {
            Ok(()) => Ok(settled(env, pure, heap)),
            Err(PureFault::Wide) => Ok(Went::Fails { kind: Kind::Term }),
            Err(PureFault::NoMemory) => Err(AllocError),
            Err(PureFault::Full) => unreachable!(),
        }
    }

    /// Assumes that a term is 0.
    pub fn assume_eq(self, alloc: Global, t: &Lin) -> Result<Went, AllocError>
        ensures { IfOk result (λ went. branches went ≡ assume (Is t.now) self) }
    {
        let State { env, pure, heap } = self;
        let mut pure = pure;
        let _width = t.width();
        match pure.assume_eq(alloc, t) {
            Ok(()) => Ok(settled(env, pure, heap)),
            Err(PureFault::Wide) => Ok(Went::Fails { kind: Kind::Term }),
            Err(PureFault::NoMemory) => Err(AllocError),
            Err(PureFault::Full) => unreachable!(),
        }
    }

    /// Assumes that a + gap <= b, for a gap of at most 2^90 in size.
    pub fn assume_at_most(
        self,
        alloc: Global,
        a: &Lin,
        gap: i128,
        b: &Lin,
    ) -> Result<Went, AllocError>
        requires { IsSize (2 ^ 90) gap }
        ensures { IfOk result (λ went. branches went ≡ assume_at_most a.now gap b.now self) }
    {
        match gap_between(alloc, a, &gap, b) {
            Ok(t) => self.assume_le(alloc, &t),
            Err(LinFault::Wide) => Ok(Went::Fails { kind: Kind::Term }),
            Err(LinFault::NoMemory) => Err(AllocError),
        }
    }

    /// Assumes that a = b.
    pub fn assume_equal(self, alloc: Global, a: &Lin, b: &Lin) -> Result<Went, AllocError>
        ensures { IfOk result (λ went. branches went ≡ assume_equal a.now b.now self) }
    {
        match a.sub(alloc, b) {
            Ok(t) => self.assume_eq(alloc, &t),
            Err(LinFault::Wide) => Ok(Went::Fails { kind: Kind::Term }),
            Err(LinFault::NoMemory) => Err(AllocError),
        }
    }

    /// Adds a chunk behind the others.
    pub fn add(self, alloc: Global, chunk: Chunk) -> Result<Went, AllocError>
        ensures { IfOk result (λ went. branches went ≡ add chunk self) }
    {
        let mut state = self;
        match state.heap.add(alloc, chunk) {
            Ok(()) => Ok(Went::Goes { state }),
            Err(HeapFault::Full) => Ok(Went::Fails { kind: Kind::Chunks }),
            Err(HeapFault::NoMemory) => Err(AllocError),
        }
    }

    /// Puts another chunk of the same kind and rung in the place of one. For want of memory nothing changes.
    pub fn put(&mut self, alloc: Global, number: u32, by: Chunk) -> Result<(), AllocError>
        requires same_kind { option_map kind_of (slice_get self.old.chunks number) ≡ Some (kind_of by) }
        requires same_rung { option_map rung_of (slice_get self.old.chunks number) ≡ Some (rung_of by) }
        ensures put { OnOk result (self.new ≡ record self.old { chunks = slice_set self.old.chunks number by }) }
        ensures kept { OnErr result (self.new ≡ self.old) }
    {
        self.heap.replace(alloc, number, by)
    }

    /// Takes a chunk out. It takes no memory.
    pub fn take(&mut self, number: u32) -> Shared<Chunk>
        requires { number < length self.old.chunks }
        ensures chunk { slice_get self.old.chunks number ≡ Some result }
        ensures taken { self.new ≡ record self.old { chunks = remove self.old.chunks number } }
    {
        self.heap.remove(number)
    }

    /// An equal state, which shares the terms of the variables, the facts and the chunks.
    pub fn fork(&self, alloc: Global) -> Result<State, AllocError>
        ensures { IfOk result (λ s. s ≡ self.now) }
    {
        Ok(State {
            env: self.env.fork(alloc)?,
            pure: self.pure.copy(alloc)?,
            heap: self.heap.fork(alloc)?,
        })
    }
}

/// A fact was assumed: there is a branch unless the facts are absurd now.
fn settled(env: Env, pure: Pure, heap: Heap) -> Went
    ensures { branches result ≡ (if absurd_facts pure.facts then [] else goes tt (record { env = env; facts = pure.facts; chunks = heap; next = pure.symbols }) ∷ []) }
{
    if pure.absurd() {
        Went::Infeasible
    } else {
        Went::Goes {
            state: State { env, pure, heap },
        }
    }
}
