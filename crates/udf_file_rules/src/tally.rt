// What is counted of the ordinary entries of a volume (UDF 2.2.6.4).
ghost use Rattle.std.specs.Prelude.{◌≡◌, ◌+◌, ◌<◌, ◌^◌, ◌&&◌, max, nat_le, nat_lt};
ghost use Rattle.udf_file_rules.specs.Tallied.{counted, ordinary_along, tally_of as tally_over};

use udf_tree::{Node, Survey};

/// The least identifier that is given to an entry but the root (UDF 3.2.1.1).
const LEAST_ID: u64 = 16;

/// What is counted of the ordinary entries of a volume.
#[derive(Clone, Copy, Debug, PartialEq, Eq)]
pub struct Tally {
    /// Those that are no directories.
    pub files: u64,
    pub directories: u64,
    /// The greatest identifier that one of them is to state, 0 where there is none.
    pub greatest_id: u64,
}

impl Tally {
    // With one entry more, which counts where it is ordinary.
    fn with(self, node: &Node) -> Tally
        requires { self.files + self.directories + 1 < 2 ^ 64 }
        ensures { result ≡ counted self node.now }
    {
        if !node.ordinary {
            return self;
        }
        let greatest_id = self.greatest_id.max(node.id);
        if node.directory {
            Tally {
                files: self.files,
                directories: self.directories + 1,
                greatest_id,
            }
        } else {
            Tally {
                files: self.files + 1,
                directories: self.directories,
                greatest_id,
            }
        }
    }

    /// Whether an identifier may be the next one: at least 16, and above those of all ordinary entries.
    pub fn allows(&self, id: u64) -> bool
        ensures { result ≡ (nat_le 16 id && nat_lt self.now.greatest_id id) }
    {
        LEAST_ID <= id && self.greatest_id < id
    }

    /// The least identifier that may be the next one.
    pub fn least_next(&self) -> u64
        ensures { self.now.greatest_id + 1 < 2 ^ 64 → result ≡ max 16 (self.now.greatest_id + 1) }
    {
        LEAST_ID.max(self.greatest_id.saturating_add(1))
    }
}

/// What is counted of the ordinary entries of a survey. Takes a step for each kept entry.
#[tactic(auto, using(crate::proofs::Tallying::one_more, crate::proofs::Tallying::all_counted))]
pub(crate) fn tally_of(survey: &Survey) -> Tally
    ensures tally { result ≡ tally_over (ordinary_along survey.now) }
    ensures few { result.files + result.directories < 2 ^ 63 }
{
    let mut tally = Tally {
        files: 0,
        directories: 0,
        greatest_id: 0,
    };
    let order = survey.in_order();
    for id in order {
        tally = tally.with(survey.node(*id));
    }
    tally
}
