//! What is true of the levels and nodes of every machine. What `WithinLimits` says outright isn't said again: 1 to 64
//! children above the last level and none there, and a node's capacity (`NodeFits`); at most 8 levels, 4,096 nodes and
//! 2^31 bytes; that a level has the least capacity and the greatest number of children of its nodes (`Sums`).

ghost use Rattle.std.specs.Prelude.{◌≡◌, ◌+◌, ◌<◌, ◌≤◌, ◌↔◌, ℕ, suc, Some, length, slice_get};
ghost use Rattle.sq_machfile.specs.declared.level.Level.{Level};
ghost use Rattle.sq_machfile.specs.declared.node.Node.{Node};
ghost use Rattle.sq_machfile.specs.Families.{IsChild, above};
ghost use Rattle.sq_machfile.specs.Machines.{Hierarchy, WithinLimits, nodes_at};
ghost use Rattle.sq_machfile.specs.Nodes.{total, children_of};

/// The children of a node stand side by side from its `first_child` on, one level below it, and behind those of the
/// nodes before it.
pub fn children_stand_side_by_side()
    ensures child { (m : Hierarchy) (p k : ℕ) (n : Node) → WithinLimits m → slice_get m.nodes p ≡ Some n → k < n.children
        → (child : Node) × (slice_get m.nodes (n.first_child + k) ≡ Some child) × (child.level ≡ suc n.level) }
    ensures behind { (m : Hierarchy) (p c : ℕ) → WithinLimits m → IsChild m.nodes p c → p < c }
    ensures in_order { (m : Hierarchy) (p q c d : ℕ) → WithinLimits m → IsChild m.nodes p c → IsChild m.nodes q d → p < q → c < d }
{}

/// The first node is the root, and each other node is the child of exactly one.
pub fn each_node_has_one_parent()
    ensures root { (m : Hierarchy) → WithinLimits m → (n : Node) × (slice_get m.nodes 0 ≡ Some n) × (n.level ≡ 0) }
    ensures free { (m : Hierarchy) (p : ℕ) → WithinLimits m → IsChild m.nodes p 0 → ⊥ }
    ensures parent { (m : Hierarchy) (c : ℕ) → WithinLimits m → 0 < c → c < length m.nodes → (p : ℕ) × IsChild m.nodes p c }
    ensures only { (m : Hierarchy) (p q c : ℕ) → WithinLimits m → IsChild m.nodes p c → IsChild m.nodes q c → p ≡ q }
    ensures count { (m : Hierarchy) → WithinLimits m → length m.nodes ≡ 1 + total children_of m.nodes }
{}

/// Each level has nodes, and they stand side by side behind those of the levels above it. The root is alone.
pub fn levels_stand_one_behind_another()
    ensures some { (m : Hierarchy) (k : ℕ) → WithinLimits m → k < length m.levels → 1 ≤ nodes_at m k }
    ensures root { (m : Hierarchy) → WithinLimits m → nodes_at m 0 ≡ 1 }
    ensures together { (m : Hierarchy) (i k : ℕ) (n : Node) → WithinLimits m → slice_get m.nodes i ≡ Some n
        → n.level ≡ k ↔ (above m.nodes k ≤ i) × (i < above m.nodes k + nodes_at m k) }
    ensures next { (m : Hierarchy) (k : ℕ) → above m.nodes (suc k) ≡ above m.nodes k + nodes_at m k }
{}

/// Each node is of a level, and has at least its capacity and at most as many children as it says.
pub fn nodes_keep_to_their_level()
    ensures { (m : Hierarchy) (i : ℕ) (n : Node) → WithinLimits m → slice_get m.nodes i ≡ Some n
        → (level : Level) × (slice_get m.levels n.level ≡ Some level) × (level.capacity ≤ n.capacity) × (n.children ≤ level.children) }
{}
