// Who wins which block of a volume.
ghost use Rattle.std.specs.Prelude.{◌≡◌, ◌++◌, ◌<◌, OnOk, IfOk};
ghost use Rattle.udf_file_model.specs.Listing.{Volume};
ghost use Rattle.udf_tree_model.specs.Frame.{Frame, setting_of, tree_of};
ghost use Rattle.udf_found.specs.Seen.{AreRead, spots};
ghost use Rattle.udf_found.specs.Shape.{IsShaped};
ghost use Rattle.udf_found.specs.Spot.{IsFoundList};
ghost use Rattle.udf_found.specs.Wanted.{found_wants, wants_over};
ghost use Rattle.udf_held.specs.Winners.{IsFramed, TellsWinners};

use crate::wants::{add_fixed, add_wants};
use std::alloc::{AllocError, Global};
use udf_claims::Claims;
use udf_field::Addr;
use udf_found::{Arena, Found};
use udf_layer::Parts;
use udf_volume::Stretch;

// Adds what a found entry wants: the holder of the pointer to the system stream directory nothing.
#[tactic(auto, using(udf_found::proofs::Wanting::holder_wants))]
fn add_found<P: Parts>(
    claims: &mut Claims,
    parts: &P,
    size: u32,
    root: Addr,
    found: &Found,
) -> Result<(), AllocError>
    requires { 0 < size }
    ensures { (f : Frame) (v : Volume) → f.root ≡ root → v.size ≡ size → IsShaped f v found.now.at found.now.shape
        → OnOk result (claims.new ≡ claims.old ++ found_wants (P.blocks parts.now) f v found.now.at) }
{
    match &found.shape {
        Some(shape) => add_wants(claims, parts, size, root, found.at, shape),
        None => Ok(()),
    }
}

// Adds what each found entry wants.
fn add_all<P: Parts>(
    claims: &mut Claims,
    parts: &P,
    size: u32,
    root: Addr,
    arena: &Arena,
) -> Result<(), AllocError>
    requires { 0 < size }
    ensures { (f : Frame) (v : Volume) → f.root ≡ root → v.size ≡ size → AreRead f v arena.now
        → OnOk result (claims.new ≡ claims.old ++ wants_over (P.blocks parts.now) f v arena.now) }
{
    for i in 0..arena.len() {
        add_found(claims, parts, size, root, arena.node(i))?;
    }
    Ok(())
}

/// What the found entries of a volume with blocks of `size` bytes want, and the fixed addresses, which none wins: the own block of
/// each, its allocation extents and its blocks. Nothing is read. Takes n log n in the runs.
pub fn claims_of<P: Parts>(
    alloc: Global,
    parts: &P,
    size: u32,
    root: Addr,
    fixed: &[Stretch],
    arena: &Arena,
) -> Result<Claims, AllocError>
    requires { 0 < size }
    ensures winners { (f : Frame) (v : Volume) → IsFramed f root fixed.now → v.size ≡ size → v.place ≡ P.place parts.now → AreRead f v arena.now
        → IsFoundList (setting_of f v) (tree_of f v) (spots arena.now) → IfOk result (TellsWinners (setting_of f v) (tree_of f v)) }
{
    let mut claims = Claims::new(alloc);
    add_fixed(&mut claims, parts, fixed)?;
    add_all(&mut claims, parts, size, root, arena)?;
    Ok(claims)
}
