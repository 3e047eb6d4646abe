ghost use Rattle.script_nodes.specs.NodeLaws.{MeansNodes};
ghost use Rattle.script_nodes.specs.ValueFaults.{NodesFailByValues};

/// An instruction does what its node does: it spends a step, and then has the node's value, issues
/// its operation, or fails.
pub fn nodes_mean_steps()
    ensures { MeansNodes }
{}

/// A node has no fault of a run: not the end of its steps or operations, nor a call too deep.
pub fn nodes_fail_by_values()
    ensures { NodesFailByValues }
{}
