//! Laws of walks and cycles, each as a contract.

ghost use Rattle.graph_cycles.specs.Laws.{WalksJoin, WalksAreDecided, RanksRuleOutCycles};

/// A walk and one that goes on from its end are a walk.
pub fn walks_join()
    ensures { WalksJoin }
{}

/// Whether a walk leads from one node to another is told by a test of the edges.
pub fn walks_are_decided()
    ensures { WalksAreDecided }
{}

/// Where each edge leads to a node of lower rank, no node lies on a cycle.
pub fn ranks_rule_out_cycles()
    ensures { RanksRuleOutCycles }
{}
