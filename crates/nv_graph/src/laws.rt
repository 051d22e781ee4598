//! The graph of a region tells what is wrong between its inodes.

ghost use Rattle.std.specs.Prelude.{◌≡◌, ◌↔◌, List, []};
ghost use Rattle.nv_region.specs.Region.{Region};
ghost use Rattle.nv_super.specs.Layout.{Layout};
ghost use Rattle.nv_super.specs.declared.faults.Fault.{Fault};
ghost use Rattle.nv_inode.specs.Chains.{layout_of};
ghost use Rattle.nv_journal.specs.Undo.{undone};
ghost use Rattle.nv_scan.specs.declared.piece.Row.{Row};
ghost use Rattle.nv_outcome.specs.Outcome.{AreRows, IsCrossFault, Outcome, IsOutcome};
ghost use Rattle.nv_graph.specs.Graph.{Graph, NoCrossFaults};
ghost use Rattle.nv_graph.specs.Calls.{SameGraph};
ghost use Rattle.nv_graph.specs.Read.{IsGraphOf, HasFaultlessGraph, HasAllNames, graph_of};

/// A region has no faults between inodes where its graph has none, and only there if each number has a list of its names.
pub fn faults_of_a_graph()
    ensures same { (region : Region) (l : Layout) (g : Graph) → IsGraphOf region l g → HasAllNames region l
        → (NoCrossFaults g ↔ ((f : Fault) → IsCrossFault region l f → ⊥)) }
    ensures none { (region : Region) (l : Layout) (g : Graph) → IsGraphOf region l g → NoCrossFaults g → (f : Fault) → IsCrossFault region l f → ⊥ }
{}

/// A region has one graph.
pub fn one_graph()
    ensures { (region : Region) (l : Layout) (g h : Graph) → IsGraphOf region l g → IsGraphOf region l h → SameGraph g h }
{}

/// The rows of a region have its graph, and a list of the names of each number. So their graph has no faults exactly where
/// the region has none between inodes.
pub fn graph_of_rows()
    ensures graph { (region : Region) (l : Layout) (rows : List Row) → AreRows region l rows → IsGraphOf region l (graph_of rows) }
    ensures names { (region : Region) (l : Layout) (rows : List Row) → AreRows region l rows → HasAllNames region l }
    ensures faults { (region : Region) (l : Layout) (rows : List Row) → AreRows region l rows
        → (NoCrossFaults (graph_of rows) ↔ ((f : Fault) → IsCrossFault region l f → ⊥)) }
{}

/// Where an outcome has no faults, the graph of its rows is that of the undone region, and has none.
pub fn faultless_outcome()
    ensures { (region : Region) (o : Outcome) → IsOutcome region o → o.faults ≡ [] → HasFaultlessGraph (undone o.sup region) (layout_of o.sup (undone o.sup region)) (graph_of o.rows) }
{}
