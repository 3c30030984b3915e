// Which blocks of the base partition are claimed, run by run.
ghost use Rattle.std.specs.Prelude.{◌≡◌, ◌≤◌, MatchOption};
ghost use Rattle.udf_claims.specs.Winner.{claimed};
ghost use Rattle.udf_free.specs.Taken.{IsNextTaken, NoneTaken};

use udf_field::Addr;
use udf_tree::Survey;

/// The reference of the base partition, which is a volume's first.
pub(crate) const BASE: u16 = 0;

/// Some blocks of the base partition that follow one another.
#[derive(Clone, Copy)]
pub(crate) struct Taken {
    pub start: u32,
    pub blocks: u32,
}

/// The first claimed blocks of the base partition from one on, of so many blocks that it has.
pub(crate) fn taken_from(survey: &Survey, from: u32, blocks: u32) -> Option<Taken>
    requires { from ≤ blocks }
    ensures { MatchOption result (NoneTaken survey.now.runs from blocks) (IsNextTaken survey.now.runs from blocks) }
{
    let at = Addr {
        part: BASE,
        block: from,
    };
    let next = survey.next_claimed(at)?;
    if next.at.part != BASE || next.at.block >= blocks {
        return None;
    }
    Some(Taken {
        start: next.at.block,
        blocks: next.blocks.min(blocks - next.at.block),
    })
}
