// The edges as a statement about the rules.
ghost use Rattle.edges.specs.Edges.{Edges};

/// All edges are proved of the definitions, which the calls follow by their contracts. There is nothing to run: the
/// contract holds them.
#[tactic(auto, using(crate::proofs::Shown::edges_hold))]
pub fn proved_edges()
    ensures { Edges }
{}
