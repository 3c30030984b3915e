// Which links are chosen, selected and fitted.
ghost use Rattle.std.specs.Prelude.{◌≡◌, ◌&&◌, not, nat_eq, cond, true, false, [], is_some, List, map, option_map, IfOk, IfSome, Some};
ghost use Rattle.std.specs.BTreeMap.{get};
ghost use Rattle.udf_tree_model.specs.Among.{Member};
ghost use Rattle.udf_tree_model.specs.Chosen.{chosen_link, fitted as fitted_in};
ghost use Rattle.udf_tree_model.specs.Laws.{IsWithin};
ghost use Rattle.udf_tree_model.specs.Node.{Setting, Tree};
ghost use Rattle.udf_held.specs.declared.held.Held.{Held};
ghost use Rattle.udf_kept.specs.Fitted.{AreSelected, AreSelectedOf, IsChoice, IsSelected, at_of, step_of, step_seen};
ghost use Rattle.udf_held.specs.Held.{AreHeld};
ghost use Rattle.udf_kept.specs.Indexed.{IsIndex};
ghost use Rattle.udf_kept.specs.Offers.{Knows, rank_seen};
ghost use Rattle.udf_kept.specs.Selects.{is_rank_at, is_selected};
ghost use Rattle.udf_found.specs.Order.{addr_cmp};

use crate::choices::{Choices, choices_of};
use crate::fitted::{Choice, Fitted, Selected};
use crate::positions::{Positions, positions_of};
use std::alloc::{AllocError, Global};
use udf_field::Addr;
use udf_found::Link;
use udf_held::Held;

// Whether the link of a holder is the first to its target.
fn is_chosen(choices: &Choices, holder: Addr, link: &Link) -> bool
    ensures { result ≡ is_rank_at holder link.now.place (option_map rank_seen (get addr_cmp choices.now link.now.target)) }
{
    match choices.get(&link.target) {
        Some(rank) => rank.holder == holder && rank.place == link.place,
        None => false,
    }
}

// Whether the link of a holder keeps its target, which has to be sound: to a directory it is the chosen link, and to what is none
// no pointer.
fn keeps(choices: &Choices, target: &Held, holder: Addr, link: &Link) -> bool
    ensures { result ≡ (target.now.sound && cond target.now.directory
        (not target.now.is_start && is_rank_at holder link.now.place (option_map rank_seen (get addr_cmp choices.now link.now.target)))
        (not (nat_eq link.now.place 0))) }
{
    if !target.sound {
        return false;
    }
    if target.directory {
        !target.is_start && is_chosen(choices, holder, link)
    } else {
        link.place != 0
    }
}

// The position of the target of a holder's link, where the link is named and selected.
fn selected_target(
    held: &[Held],
    positions: &Positions,
    choices: &Choices,
    holder: Addr,
    link: &Link,
) -> Option<usize>
    requires { IsIndex held.now (get addr_cmp positions.now) }
    ensures selects { (s : Setting) (t : Tree) → Knows s t held.now (get addr_cmp choices.now)
        → is_some result ≡ is_selected s t holder link.now }
    ensures position { IfSome result (λ i. at_of held.now i ≡ Some link.now.target) }
{
    if link.earlier.is_some() {
        return None;
    }
    let position = *positions.get(&link.target)?;
    keeps(choices, &held[position], holder, link).then_some(position)
}

// The selected links of a sound entry, up to the first of them for which its content has no room.
fn fitted_links(
    alloc: Global,
    held: &[Held],
    positions: &Positions,
    choices: &Choices,
    holder: &Held,
) -> Result<Vec<Fitted>, AllocError>
    requires { IsIndex held.now (get addr_cmp positions.now) }
    ensures { (s : Setting) (t : Tree) → Knows s t held.now (get addr_cmp choices.now) → Member holder.now held.now → holder.now.sound ≡ true
        → IfOk result (λ fitted. map (step_seen held.now) fitted.items ≡ map step_of (fitted_in s t holder.now.at)) }
{
    let mut fitted = Vec::with_capacity(alloc, holder.links.len())?;
    let mut room = holder.space;
    for link in &holder.links {
        let Some(to) = selected_target(held, positions, choices, holder.at, link) else {
            continue;
        };
        if room < link.room {
            return Ok(fitted);
        }
        room -= link.room;
        fitted.push(Fitted {
            place: link.place,
            to,
        })?;
    }
    Ok(fitted)
}

// The fitted links of an entry: none, where it is not sound.
fn fitted_of(
    alloc: Global,
    held: &[Held],
    positions: &Positions,
    choices: &Choices,
    holder: &Held,
) -> Result<Vec<Fitted>, AllocError>
    requires { IsIndex held.now (get addr_cmp positions.now) }
    ensures sound { (s : Setting) (t : Tree) → Knows s t held.now (get addr_cmp choices.now) → Member holder.now held.now → holder.now.sound ≡ true
        → IfOk result (λ fitted. map (step_seen held.now) fitted.items ≡ map step_of (fitted_in s t holder.now.at)) }
    ensures other { holder.now.sound ≡ false → IfOk result (λ fitted. fitted.items ≡ []) }
{
    if !holder.sound {
        return Ok(Vec::new(alloc));
    }
    fitted_links(alloc, held, positions, choices, holder)
}

// The chosen link to a directory; a start has none.
fn chosen_to(positions: &Positions, choices: &Choices, target: &Held) -> Option<Choice>
    ensures { (s : Setting) (t : Tree) (hs : List Held) → Knows s t hs (get addr_cmp choices.now) → IsIndex hs (get addr_cmp positions.now)
        → target.now.is_start ≡ s.start target.now.at → target.now.directory ≡ true
        → IsChoice hs (λ d. d.level) (chosen_link s t target.now.at) result }
{
    if !target.directory {
        return None;
    }
    if target.is_start {
        return None;
    }
    let rank = choices.get(&target.at)?;
    let holder = *positions.get(&rank.holder)?;
    Some(Choice {
        holder,
        place: rank.place,
    })
}

// The chosen link to an entry, and its fitted links.
fn selected_of(
    alloc: Global,
    held: &[Held],
    positions: &Positions,
    choices: &Choices,
    entry: &Held,
) -> Result<Selected, AllocError>
    requires { IsIndex held.now (get addr_cmp positions.now) }
    ensures { (s : Setting) (t : Tree) → Knows s t held.now (get addr_cmp choices.now) → Member entry.now held.now
        → IfOk result (λ x. IsSelected s t held.now entry.now x) }
{
    Ok(Selected {
        chosen: chosen_to(positions, choices, entry),
        fitted: fitted_of(alloc, held, positions, choices, entry)?,
    })
}

// Of each entry the chosen link to it, and its fitted links.
fn select_all(
    alloc: Global,
    held: &[Held],
    positions: &Positions,
    choices: &Choices,
) -> Result<Vec<Selected>, AllocError>
    requires { IsIndex held.now (get addr_cmp positions.now) }
    ensures { (s : Setting) (t : Tree) → Knows s t held.now (get addr_cmp choices.now)
        → IfOk result (λ xs. AreSelectedOf s t held.now held.now xs.items) }
{
    let mut all = Vec::new(alloc);
    for entry in held {
        all.push(selected_of(alloc, held, positions, choices, entry)?)?;
    }
    Ok(all)
}

/// The chosen links to found directories, and the fitted links of each found entry, in the order of the found entries. Takes
/// n log n in the entries and their links.
pub(crate) fn select(alloc: Global, held: &[Held]) -> Result<Vec<Selected>, AllocError>
    ensures { (s : Setting) (t : Tree) → IsWithin s t → AreHeld s t held.now → IfOk result (λ xs. AreSelected s t held.now xs.items) }
{
    let positions = positions_of(alloc, held)?;
    let choices = choices_of(alloc, held)?;
    select_all(alloc, held, &positions, &choices)
}
