//! What the definitions of a diagram mean.
ghost use Rattle.pb_diagram.specs.Intervals.{ChildrenAreOfNodes, NodesAreIntervals};

/// The law that the nodes of each level are the different intervals of the residues there, in order.
pub fn nodes_are_intervals()
    ensures { NodesAreIntervals }
{}

/// The law that the children of a node are the same for each residue in its interval.
pub fn children_are_of_nodes()
    ensures { ChildrenAreOfNodes }
{}
