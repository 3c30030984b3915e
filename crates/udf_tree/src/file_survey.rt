// The survey of a volume's files, made from its blocks.
ghost use Rattle.std.specs.Prelude.{◌≡◌, ◌<◌, ◌/◌, ℕ, true, IfErr, IfOk, Some};
ghost use Rattle.udf_field.specs.declared.address.Addr.{Addr};
ghost use Rattle.udf_model.specs.Size.{is_size};
ghost use Rattle.udf_outside.specs.Files.{IsAttached};
ghost use Rattle.udf_outside.specs.Stops.{bytes_of};
ghost use Rattle.udf_outside.specs.Reads.{OnlyReads};
ghost use Rattle.udf_outside.specs.declared.bench.Role.TheVariants.{Image};
ghost use Rattle.udf_file_model.specs.Listing.{Volume, volume_of};
ghost use Rattle.udf_tree_model.specs.Frame.{Frame};
ghost use Rattle.udf_tree_model.specs.Stated.{IsFileSetPlaced};
ghost use Rattle.udf_tree_model.specs.Refused.{refusal};
ghost use Rattle.udf_found.specs.Beyond.{HoldsFileSet, IsAnswer};
ghost use Rattle.udf_contents.specs.Contents.{AreContents};
ghost use Rattle.udf_kept.specs.Entries.{HasFileSet, RefusesFiles, missing_of};
ghost use Rattle.udf_tree.specs.Accepted.{IsAccepted};
ghost use Rattle.udf_tree.specs.Survey.{IsSurvey};

use crate::surveyed::{Survey, survey_of};
use std::alloc::{AllocError, Global};
use udf_contents::{MendedContent, claims_after, mended_contents};
use udf_dues::{Dues, counts_of, identifiers_of, link_counts_of};
use udf_kept::{Entries, survey_entries};
use udf_layer::{LayerStop, Parts};
use udf_outside::Bench;
use udf_volume::FileSet;

// What is told of entries and of their mended contents.
fn survey_held<P: Parts>(
    alloc: Global,
    parts: &P,
    size: u32,
    files: &FileSet,
    entries: &Entries,
    contents: Vec<Option<MendedContent>>,
) -> Result<Survey, AllocError>
    requires { is_size size ≡ true }
    ensures { (f : Frame) (v : Volume) → v.size ≡ size → v.place ≡ P.place parts.now → HasFileSet f files.now → IsAccepted f v entries.now
        → AreContents f v entries.now.held.items entries.now.kept.items contents.items → IfOk result (IsSurvey f v) }
{
    let held = &entries.held;
    let kept = &entries.kept;
    let claims = claims_after(
        alloc,
        parts,
        size,
        files.fixed.stretches(),
        held,
        kept,
        &contents,
    )?;
    let counts = counts_of(
        alloc,
        files.root,
        files.at,
        held,
        &entries.selected,
        kept,
        &contents,
    )?;
    let links = link_counts_of(alloc, held, &counts)?;
    let ids = identifiers_of(alloc, files.root, held, &entries.ordinary)?;
    let dues = Dues { counts, links, ids };
    survey_of(
        alloc, files.root, files.at, entries, &dues, contents, claims,
    )
}

/// The survey of the files of a volume with blocks of `size` bytes: which entries are found and kept, what each is to state, what
/// the contents of directories become, and what is claimed after that. `files` is the volume's file set. An error is the first
/// refusal for what the found entries are or because the root is no sound directory (UDF 2.3.5, 2.3.6), a fault of the bench, or
/// want of memory. Each block of an entry, each allocation extent and each directory's content is read once, and a directory's
/// once more where some of its content is lost or it is written anew. Takes n log n in the entries and their links.
pub fn survey<B: Bench, P: Parts>(
    alloc: Global,
    bench: &mut B,
    parts: &P,
    size: u32,
    files: &FileSet,
) -> Result<Survey, LayerStop>
    requires attached { IsAttached Image (B.files bench.old) }
    requires size { is_size size ≡ true }
    requires placed { (a : Addr) (s : ℕ) → P.place parts.now a ≡ Some s → s < (B.files bench.old).image.size / size }
    ensures survey { B.tells → (f : Frame) → HasFileSet f files.now → HoldsFileSet f (volume_of size (bytes_of Image (B.held bench.old)) (P.place parts.now)) → IsFileSetPlaced f (volume_of size (bytes_of Image (B.held bench.old)) (P.place parts.now)) → IfOk result (IsSurvey f (volume_of size (bytes_of Image (B.held bench.old)) (P.place parts.now))) }
    ensures refusal { B.tells → (f : Frame) → HasFileSet f files.now → HoldsFileSet f (volume_of size (bytes_of Image (B.held bench.old)) (P.place parts.now)) → IsAnswer (missing_of (refusal f (volume_of size (bytes_of Image (B.held bench.old)) (P.place parts.now)))) result }
    ensures named { IfErr result RefusesFiles }
    ensures reads { OnlyReads B.files B.held B.faults bench.old bench.new LayerStop.Fault result }
{
    let entries = survey_entries(alloc, bench, parts, size, files)?;
    let contents = mended_contents(
        alloc,
        bench,
        parts,
        size,
        files.root,
        files.at,
        &entries.held,
        &entries.selected,
        &entries.kept,
    )?;
    let survey = survey_held(alloc, parts, size, files, &entries, contents)?;
    Ok(survey)
}
