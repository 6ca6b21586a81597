//! Bounds on differences, kept as the least totals of walks between any two nodes.
ghost use Rattle.std.specs.Prelude.{◌≡◌, ◌<◌, ◌≤◌, ◌^◌, ◌↔◌, ℕ, [], ◌∷◌, length, get_or, IfOk, OnOk, OnErr, None};
ghost use Rattle.fsl_lin.specs.Sizes.{IsSize};
ghost use Rattle.fsl_lin.specs.Walks.{feasible, least, IsLeast};
ghost use Rattle.fsl_bounds.specs.Matrix.{nodes_of, NegativeWalk};
ghost use Rattle.fsl_bounds.specs.Marks.{after_add, is_feasible};

use crate::added::Added;
use crate::mark::Mark;
use crate::row::Row;
use crate::rows::{closes, entry, nodes_after, rows_after, shared};
use fsl_lin::Edge;
use std::alloc::{AllocError, Global};
use std::marker::Model;

/// Bounds `x - y <= c` over the nodes 0 to 512, node 0 being zero, of which no closed walk has a total below 0.
#[derive(Drop)]
pub struct Bounds {
    edges: Vec<Edge>,
    rows: Vec<Row>,
    marks: Vec<Mark>,
}

impl Model for Bounds {
    ghost use Rattle.std.specs.Prelude.{reverse};
    ghost use Rattle.fsl_bounds.specs.Marks.{Marked, at_marks, AreBounds};

    ghost Value = { Marked };

    ghost view = { λ b. record { edges = reverse b.edges.items; marks = at_marks (reverse b.edges.items) (reverse b.marks.items) } };

    ghost invariant = { λ b. AreBounds b.edges.items b.rows.items b.marks.items };
}

impl Bounds {
    /// No bounds.
    pub fn new(alloc: Global) -> Result<Bounds, AllocError>
        ensures { IfOk result (λ b. b ≡ record { edges = []; marks = [] }) }
    {
        let row = Row::from_vec(alloc, Vec::from_array(alloc, [Some(0)])?)?;
        let mut rows = Vec::new(alloc);
        rows.push(row)?;
        Ok(Bounds {
            edges: Vec::new(alloc),
            rows,
            marks: Vec::new(alloc),
        })
    }

    /// One more than the greatest node that a bound names, and 1 where there is no bound.
    pub fn nodes(&self) -> u32
        ensures nodes { result ≡ nodes_of self.now.edges }
        ensures few { result ≤ 513 }
    {
        self.rows.len() as u32
    }

    /// The least total of a walk from x to y, `None` exactly where there is none. The walk without edges goes
    /// from a node to itself with total 0.
    pub fn least(&self, x: u32, y: u32) -> Option<i128>
        ensures least { result ≡ least self.now.edges x y }
        ensures walks { IsLeast self.now.edges x y result }
    {
        entry(self.rows.as_slice(), x, y)
    }

    /// The least totals of walks from x, to each node in order.
    pub fn row(&self, x: u32) -> &[Option<i128>]
        requires { x < nodes_of self.now.edges }
        ensures long { length result.now ≡ nodes_of self.now.edges }
        ensures each { (y : ℕ) → y < nodes_of self.now.edges → get_or result.now y None ≡ least self.now.edges x y }
    {
        self.rows[x as usize].as_slice()
    }

    /// Adds `x - y <= c`, where no closed walk through it has a total below 0. For want of memory, and where
    /// it is `Infeasible`, the bounds stay as they were.
    pub fn add(&mut self, alloc: Global, x: u32, y: u32, c: i128) -> Result<Added, AllocError>
        requires from { x ≤ 512 }
        requires to { y ≤ 512 }
        requires size { IsSize (2 ^ 91) c }
        ensures infeasible { IfOk result (λ added. (added ≡ Added.Infeasible) ↔ NegativeWalk self.old.edges (record { from = x; to = y; bound = c })) }
        ensures feasible { IfOk result (λ added. feasible (record { from = x; to = y; bound = c } ∷ self.old.edges) ≡ is_feasible added) }
        ensures after { IfOk result (λ added. self.new ≡ after_add added (record { from = x; to = y; bound = c }) self.old) }
        ensures kept { OnErr result (self.new ≡ self.old) }
    {
        let edge = Edge {
            from: x,
            to: y,
            bound: c,
        };
        if closes(self.rows.as_slice(), &edge) {
            return Ok(Added::Infeasible);
        }
        let many = nodes_after(self.nodes(), &edge);
        let rows = rows_after(alloc, self.rows.as_slice(), &edge, many)?;
        self.edges.push(edge)?;
        self.rows = rows;
        Ok(Added::Feasible)
    }

    /// Sets a mark. For want of memory the bounds stay as they were.
    pub fn mark(&mut self, alloc: Global) -> Result<(), AllocError>
        ensures marked { OnOk result (self.new ≡ record { edges = self.old.edges; marks = self.old.edges ∷ self.old.marks }) }
        ensures kept { OnErr result (self.new ≡ self.old) }
    {
        let rows = shared(alloc, self.rows.as_slice())?;
        self.marks.push(Mark {
            edges: self.edges.len(),
            rows,
        })?;
        Ok(())
    }

    /// Puts back the bounds of the newest mark that is left, and takes the mark away.
    pub fn back(&mut self)
        requires { 0 < length self.old.marks }
        ensures { self.old.marks ≡ self.new.edges ∷ self.new.marks }
    {
        match self.marks.pop() {
            Some(mark) => {
                self.edges.truncate(mark.edges);
                self.rows = mark.rows;
            }
            None => unreachable!(),
        }
    }

    /// The same bounds, without marks.
    pub fn copy(&self, alloc: Global) -> Result<Bounds, AllocError>
        ensures { IfOk result (λ b. b ≡ record { edges = self.now.edges; marks = [] }) }
    {
        Ok(Bounds {
            edges: Vec::from_slice(alloc, self.edges.as_slice())?,
            rows: shared(alloc, self.rows.as_slice())?,
            marks: Vec::new(alloc),
        })
    }
}
