//! Laws of the tree of kept entries: which children each has, and that from the root all are met by children. Each law is the contract
//! of a function with an empty body. It stands on the definitions of trees.
#![tactic(auto)]

ghost use Rattle.std.specs.Prelude.{◌≡◌, ◌≢◌, ◌≤◌, ◌↔◌, ℕ, AllPairs, Contains, None, true, length};
ghost use Rattle.udf_field.specs.declared.address.Addr.{Addr};
ghost use Rattle.udf_file_model.specs.Listing.{Volume};
ghost use Rattle.udf_tree_laws.specs.Subtree.{subtree};
ghost use Rattle.udf_tree_model.specs.Children.{children};
ghost use Rattle.udf_tree_model.specs.Frame.{Frame};
ghost use Rattle.udf_tree_model.specs.Ordinary.{is_kept_entry, kept_entries};
ghost use Rattle.udf_tree_model.specs.Parent.{parent};
ghost use Rattle.udf_tree_model.specs.Refused.{refusal};
ghost use Rattle.udf_tree_model.specs.Stated.{IsFileSetPlaced};

/// The children of a kept entry are the kept entries, but the root, whose parent it is, each once. No other entry than the root
/// may be kept at the file set's address for that: what such a one keeps would have the root as its parent, as what the file set
/// keeps has. Where the root is a kept entry, each other is a child of exactly one, its parent.
pub fn children_law()
    ensures members { (f : Frame) (v : Volume) → refusal f v ≡ None → IsFileSetPlaced f v
        → (is_kept_entry f v f.file_set ≡ true → f.file_set ≡ f.root) → (a b : Addr) → is_kept_entry f v a ≡ true
        → Contains (children f v a) b ↔ ((is_kept_entry f v b ≡ true) × (b ≢ f.root) × (parent f v b ≡ a)) }
    ensures once { (f : Frame) (v : Volume) (a : Addr) → is_kept_entry f v a ≡ true → AllPairs (λ x y. x ≢ y) (children f v a) }
    ensures one { (f : Frame) (v : Volume) → refusal f v ≡ None → IsFileSetPlaced f v
        → (is_kept_entry f v f.file_set ≡ true → f.file_set ≡ f.root) → is_kept_entry f v f.root ≡ true → (b : Addr)
        → is_kept_entry f v b ≡ true → b ≢ f.root → (is_kept_entry f v (parent f v b) ≡ true) × Contains (children f v (parent f v b)) b
        × ((a : Addr) → is_kept_entry f v a ≡ true → Contains (children f v a) b → a ≡ parent f v b) }
{}

/// From the root, where it is a kept entry, its children and theirs in turn are exactly the kept entries, each once, in no more
/// generations than there are kept entries.
pub fn walk_law()
    ensures members { (f : Frame) (v : Volume) → refusal f v ≡ None → IsFileSetPlaced f v
        → (is_kept_entry f v f.file_set ≡ true → f.file_set ≡ f.root) → is_kept_entry f v f.root ≡ true → (k : ℕ)
        → length (kept_entries f v) ≤ k → (a : Addr) → Contains (subtree f v k f.root) a ↔ (is_kept_entry f v a ≡ true) }
    ensures once { (f : Frame) (v : Volume) → refusal f v ≡ None → IsFileSetPlaced f v
        → (is_kept_entry f v f.file_set ≡ true → f.file_set ≡ f.root) → is_kept_entry f v f.root ≡ true → (k : ℕ)
        → AllPairs (λ x y. x ≢ y) (subtree f v k f.root) }
{}
