// What the entries of a volume state.
ghost use Rattle.std.specs.Prelude.{◌≡◌, IfOk, map};
ghost use Rattle.udf_tree_model.specs.Frame.{stream_of};
ghost use Rattle.udf_tree.specs.Stated.{stated_in, stated_shaped};

use std::alloc::{AllocError, Global};
use udf_field::{Addr, Long};
use udf_found::Shape;
use udf_held::Held;

/// What an entry states of itself.
#[derive(Clone, Copy, Debug, PartialEq, Eq)]
pub struct Stated {
    /// Its information length in bytes (ECMA-167 4/14.9.10).
    pub information: u64,
    /// Its link count (ECMA-167 4/14.9.6).
    pub links: u16,
    /// Its identifier (ECMA-167 4/14.9.18).
    pub id: u64,
    /// The address that the pointer to its stream directory names, where the length of that is not 0 (ECMA-167 4/14.17.20).
    pub pointer: Option<Addr>,
}

// What is stated where no entry is.
const NOTHING: Stated = Stated {
    information: 0,
    links: 0,
    id: 0,
    pointer: None,
};

// The address that a pointer to a stream directory names, where its length is not 0.
#[tactic(auto, unfolding(udf_tree_model::specs::Frame::stream_of))]
fn pointed(stream: Option<Long>) -> Option<Addr>
    ensures { result ≡ stream_of stream }
{
    let pointer = stream?;
    if pointer.length == 0 {
        None
    } else {
        Some(pointer.at)
    }
}

// What an entry of a shape states.
fn stated_by(shape: &Option<Shape>) -> Stated
    ensures { result ≡ stated_shaped shape.now }
{
    match shape {
        Some(shape) => Stated {
            information: shape.information,
            links: shape.links,
            id: shape.id,
            pointer: pointed(shape.stream),
        },
        None => NOTHING,
    }
}

// What the found entry at an index states.
fn stated_at(held: &[Held], i: usize) -> Stated
    ensures { result ≡ stated_in held.now i }
{
    if i < held.len() {
        stated_by(&held[i].shape)
    } else {
        NOTHING
    }
}

/// What the found entries at these indexes state, in order.
pub(crate) fn stated_of(
    alloc: Global,
    held: &[Held],
    indexes: &[usize],
) -> Result<Vec<Stated>, AllocError>
    ensures { IfOk result (λ stated. stated.items ≡ map (stated_in held.now) indexes.now) }
{
    let mut stated = Vec::new(alloc);
    for index in indexes {
        stated.push(stated_at(held, *index))?;
    }
    Ok(stated)
}
