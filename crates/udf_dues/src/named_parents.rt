// Which address the parent FID of each kept directory names, once its content is mended.
ghost use Rattle.std.specs.Prelude.{◌≡◌, None, IfOk, get_or, is_some, if◌then◌else◌};
ghost use Rattle.udf_file_model.specs.Address.{same_addr};
ghost use Rattle.udf_dues.specs.NamedParents.{AreNamed, holder_seen, named_seen, parent_seen};

use std::alloc::{AllocError, Global};
use udf_contents::MendedContent;
use udf_field::Addr;
use udf_held::Held;
use udf_kept::{Choice, Keeping};

// Whether a content is written anew at a position.
fn is_written(contents: &[Option<MendedContent>], position: usize) -> bool
    ensures { result ≡ is_some (get_or contents.now position None) }
{
    position < contents.len() && contents[position].is_some()
}

// How the entry at a position is kept.
fn keeping_at(kept: &[Option<Keeping>], position: usize) -> Option<Keeping>
    ensures { result ≡ get_or kept.now position None }
{
    if position < kept.len() {
        kept[position]
    } else {
        None
    }
}

// The holder of a link; the root where there is no link, or the file set holds it.
fn holder_of(root: Addr, file_set: Addr, held: &[Held], link: Option<Choice>) -> Addr
    ensures { result ≡ holder_seen root file_set held.now link }
{
    let Some(choice) = link else {
        return root;
    };
    let Some(holder) = held.get(choice.holder) else {
        return root;
    };
    if holder.at == file_set {
        root
    } else {
        holder.at
    }
}

// The parent of a kept entry.
fn parent_of(root: Addr, file_set: Addr, held: &[Held], at: Addr, keeping: Keeping) -> Addr
    ensures { result ≡ parent_seen root file_set held.now at keeping }
{
    if at == root {
        root
    } else {
        holder_of(root, file_set, held, keeping.by)
    }
}

// The address that the parent FID of an entry names, where it is a kept directory.
fn named_parent(
    root: Addr,
    file_set: Addr,
    held: &[Held],
    entry: &Held,
    keeping: Option<Keeping>,
    is_written: bool,
) -> Option<Addr>
    ensures { result ≡ named_seen root file_set held.now entry.now keeping is_written }
{
    let keeping = keeping?;
    if !entry.directory || entry.shape.is_none() {
        return None;
    }
    if is_written {
        Some(parent_of(root, file_set, held, entry.at, keeping))
    } else {
        entry.parents.only
    }
}

/// The addresses that the parent FIDs of kept directories name, in the order of the found entries.
pub(crate) fn named_parents(
    alloc: Global,
    root: Addr,
    file_set: Addr,
    held: &[Held],
    kept: &[Option<Keeping>],
    contents: &[Option<MendedContent>],
) -> Result<Vec<Option<Addr>>, AllocError>
    ensures { IfOk result (λ parents. AreNamed root file_set held.now kept.now contents.now parents.items) }
{
    let mut parents = Vec::new(alloc);
    for (position, entry) in held.iter().enumerate() {
        let keeping = keeping_at(kept, position);
        let is_written = is_written(contents, position);
        parents.push(named_parent(root, file_set, held, entry, keeping, is_written))?;
    }
    Ok(parents)
}
