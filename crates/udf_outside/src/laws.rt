//! What a stop may leave of the two files of a bench: laws on the definitions that the trait's clauses are made of.
ghost use Rattle.std.specs.Prelude.{◌≡◌, ◌⊎◌, ◌↔◌, ℕ, ◌≤◌, List, length, Result, OnOk, IsTrue, Bool};
ghost use Rattle.udf_outside.specs.declared.bench.Role.{Role};
ghost use Rattle.udf_outside.specs.declared.bench.Role.TheVariants.{Image, Side};
ghost use Rattle.udf_outside.specs.declared.bench.Failed.{Failed};
ghost use Rattle.udf_outside.specs.Files.{other};
ghost use Rattle.udf_outside.specs.Stops.{Held, Pair, part_of, bytes_of, pair_of, Now, Since, moment, IsDurable, IsSynced, Torn, Writes, Syncs, LeavesOnly};

/// What reads give is always among the pairs that a stop now may leave, and these are what counts since the present
/// moment. A bench is synced exactly where both files are durable.
pub fn moments_law()
    ensures seen { (held : Held) → Now held (pair_of held) }
    ensures counts { (held : Held) (z : ℕ) (pair : Pair) → z ≤ moment held → Now held pair → Since z held pair }
    ensures only_now { (held : Held) (pair : Pair) → Since (moment held) held pair → Now held pair }
    ensures synced { (held : Held) → IsSynced held ↔ (IsDurable Image held × IsDurable Side held) }
{}

/// A write, done or failed: each pair that a stop may leave after it comes from one before it, torn in the range. Nothing
/// is forgotten, nothing else is new, and the other file stays durable.
pub fn write_law()
    ensures torn { (role : Role) (at : ℕ) (bytes : List ℕ) (old new : Held) (result : Result (Unit {0}) Failed) (pair : Pair)
        → at ≤ length (bytes_of role old) → Writes role at bytes old new result → Now new pair
        → (before : Pair) × Now old before × Torn at (length bytes) (part_of role before) (part_of role pair)
        × (part_of (other role) before ≡ part_of (other role) pair) }
    ensures keeps { (role : Role) (at : ℕ) (bytes : List ℕ) (old new : Held) (result : Result (Unit {0}) Failed) (z : ℕ) (pair : Pair)
        → Writes role at bytes old new result → Since z old pair → Since z new pair }
    ensures adds { (role : Role) (at : ℕ) (bytes : List ℕ) (old new : Held) (result : Result (Unit {0}) Failed) (z : ℕ) (pair : Pair)
        → Writes role at bytes old new result → Since z new pair → Since z old pair ⊎ Now new pair }
    ensures durable { (role : Role) (at : ℕ) (bytes : List ℕ) (old new : Held) (result : Result (Unit {0}) Failed)
        → Writes role at bytes old new result → IsDurable (other role) old → IsDurable (other role) new }
{}

/// A sync, done or failed: it adds no pair and forgets none. Where it succeeded, its file is durable, and the other file
/// stays so.
pub fn sync_law()
    ensures durable { (role : Role) (old new : Held) (result : Result (Unit {0}) Failed)
        → Syncs role old new result → OnOk result (IsDurable role new) }
    ensures other { (role : Role) (old new : Held) (result : Result (Unit {0}) Failed)
        → Syncs role old new result → IsDurable (other role) old → IsDurable (other role) new }
    ensures none_new { (role : Role) (old new : Held) (result : Result (Unit {0}) Failed) (pair : Pair)
        → Syncs role old new result → Now new pair → Now old pair }
    ensures keeps { (role : Role) (old new : Held) (result : Result (Unit {0}) Failed) (z : ℕ) (pair : Pair)
        → Syncs role old new result → Since z old pair → Since z new pair }
    ensures adds { (role : Role) (old new : Held) (result : Result (Unit {0}) Failed) (z : ℕ) (pair : Pair)
        → Syncs role old new result → Since z new pair → Since z old pair ⊎ Now new pair }
{}

/// Runs follow on one another: what each of them leaves only is all that both leave.
pub fn run_law()
    ensures same { (held : Held) (test : Pair → Bool) → ((pair : Pair) → Now held pair → IsTrue (test pair)) → LeavesOnly held held (λ pair. IsTrue (test pair)) }
    ensures then { (start middle end : Held) (test : Pair → Bool) → LeavesOnly start middle (λ pair. IsTrue (test pair))
        → LeavesOnly middle end (λ pair. IsTrue (test pair)) → LeavesOnly start end (λ pair. IsTrue (test pair)) }
{}
