//! Laws on the outcomes of a run, and on the promises of a repair.
ghost use Rattle.std.specs.Prelude.{◌≡◌, ◌≤◌, ℕ, List, true, false, Option, Some, None, Ok};
ghost use Rattle.udf_outside.specs.declared.bench.Role.TheVariants.{Image, Side};
ghost use Rattle.udf_outside.specs.Stops.{Held, Pair, bytes_of, pair_of};
ghost use Rattle.udf_volume_model.specs.Size.{size_of};
ghost use Rattle.udf_model.specs.Bytes.{IsBytes};
ghost use Rattle.udf_model.specs.Size.{is_size};
ghost use Rattle.udf_mended_image.specs.Accepted.{is_accepted, is_unbroken};
ghost use Rattle.udf_mended_image.specs.Sized.{is_accepted_as, is_unbroken_as};
ghost use Rattle.udf_intact.specs.Images.{IsIntactAs, KeepsPathAs};
ghost use Rattle.udf_intact.specs.Steps.{Step};
ghost use Rattle.udf_redo.specs.Settled.{settled, IsOpenLog};
ghost use Rattle.udf_top.specs.Repairing.{replaying, repair_of, target, written_in};
ghost use Rattle.udf_top.specs.Headline.{IsDone};
ghost use Rattle.udf_top.specs.Chains.{AreLeft, last_of};
ghost use Rattle.udf_top.specs.Checking.{refusal_at};
ghost use Rattle.udf_top.specs.Udffsck.{check_of};

use crate::Outcome;

/// A check is clean exactly where the image is not refused and breaks no rule, of its volume or of its files, and a repair exactly
/// where no log is open, the image that the files stand for is accepted, and it breaks no rule. An accepted image of bytes that
/// breaks a rule has a block to be repaired, and one that breaks none has no such block.
pub fn clean_law()
    ensures check { (given : Option ℕ) (image : List ℕ) → check_of given image ≡ Outcome.Clean
        → (size : ℕ) × ((size_of given image ≡ Some size) × ((refusal_at size image ≡ None) × (is_unbroken size image ≡ true))) }
    ensures checked { (given : Option ℕ) (size : ℕ) (image : List ℕ) → size_of given image ≡ Some size → refusal_at size image ≡ None
        → is_unbroken size image ≡ true → check_of given image ≡ Outcome.Clean }
    ensures repair { (given : Option ℕ) (pair : Pair) → repair_of given pair ≡ Outcome.Clean
        → (replaying pair ≡ Ok 0) × ((is_accepted_as given (settled pair) ≡ true) × (is_unbroken_as given (settled pair) ≡ true)) }
    ensures repaired { (given : Option ℕ) (pair : Pair) → replaying pair ≡ Ok 0 → is_accepted_as given (settled pair) ≡ true
        → is_unbroken_as given (settled pair) ≡ true → repair_of given pair ≡ Outcome.Clean }
    ensures some { (size : ℕ) (image : List ℕ) → is_size size ≡ true → IsBytes image → is_accepted size image ≡ true → is_unbroken size image ≡ false
        → 1 ≤ written_in size image }
    ensures none { (size : ℕ) (image : List ℕ) → is_unbroken size image ≡ true → written_in size image ≡ 0 }
{}

/// After any number of stops, each in a repair that began with what the one before left, the image in which a repair ends is
/// still the same; so a chain of stopped repairs and one that ends has the image of the repair that was never stopped. Each path that
/// no damage touched at the start leads at the end to the file to which it led, with the same bytes.
pub fn chain_law()
    ensures target { (given : Option ℕ) (start : Pair) (pairs : List Pair) → AreLeft given start pairs
        → target given (last_of start pairs) ≡ target given start }
    ensures ends { (given : Option ℕ) (start : Pair) (pairs : List Pair) (end : Held) → AreLeft given start pairs
        → IsDone given (last_of start pairs) end → bytes_of Image end ≡ target given start }
    ensures paths { (given : Option ℕ) (size : ℕ) (start : Pair) (pairs : List Pair) (end : Held) → is_size size ≡ true → IsBytes (settled start)
        → size_of given (settled start) ≡ Some size → AreLeft given start pairs → IsDone given (last_of start pairs) end → (steps : List Step)
        → IsIntactAs given (settled start) steps → KeepsPathAs given (settled start) (bytes_of Image end) steps }
{}

/// After a repair that ended no log of the image is open, the files stand for the image as it is, and a second repair has it
/// as its target: nothing is left to be written.
pub fn rerun_law()
    ensures closed { (given : Option ℕ) (start : Pair) (end : Held) → IsDone given start end
        → IsOpenLog (bytes_of Side end) (bytes_of Image end) → ⊥ }
    ensures settled { (given : Option ℕ) (start : Pair) (end : Held) → IsDone given start end → settled (pair_of end) ≡ bytes_of Image end }
    ensures target { (given : Option ℕ) (start : Pair) (end : Held) → IsDone given start end
        → target given (pair_of end) ≡ bytes_of Image end }
{}
