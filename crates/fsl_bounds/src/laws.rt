//! What the definitions of walks come to. The call does nothing; its contract is the law.
ghost use Rattle.std.specs.Prelude.{◌≡◌, ◌↔◌, ◌≤ℤ◌, ℕ, List, pos, true};
ghost use Rattle.fsl_lin.specs.declared.edge.Edge.{Edge};
ghost use Rattle.fsl_lin.specs.Walks.{IsWalk, total, feasible, least, IsLeast};

/// Edges are feasible exactly where no closed walk along them has a total below 0, and then the least total
/// between any two nodes is that of a walk, and no walk has a lesser one.
pub fn by_walks()
    ensures closed { (es : List Edge) → (feasible es ≡ true) ↔ ((x : ℕ) (ws : List Edge) → IsWalk es x x ws → pos 0 ≤ℤ total ws) }
    ensures least { (es : List Edge) (x y : ℕ) → feasible es ≡ true → IsLeast es x y (least es x y) }
{}
