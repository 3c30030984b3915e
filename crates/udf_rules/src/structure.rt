// Volume structure descriptors (ECMA-167 2/9.1, 3/9.1).
ghost use Rattle.std.specs.Prelude.{◌≡◌, ◌≤◌, length};
ghost use Rattle.udf_rules_model.specs.Recognition.{is_among, others, wanted_digit};
ghost use Rattle.udf_rules.specs.Structures.{behind_in, digit_by, digit_in, is_at_stage, is_other as is_other_structure, is_sequence_of, name_in, structure_named};

/// The edition of ECMA-167 by which a volume is recorded.
#[derive(Clone, Copy, Debug, PartialEq, Eq)]
pub(crate) enum Edition {
    Second,
    Third,
}

/// What a volume structure descriptor is, by its identifier (ECMA-167 2/9.1.2).
#[derive(Clone, Copy, Debug, PartialEq, Eq)]
pub(crate) enum Structure {
    /// `BEA01`: the beginning of a sequence.
    Beginning,
    /// `NSR02` or `NSR03`: a volume is recorded.
    Volume(Edition),
    /// `TEA01`: the end of a sequence.
    End,
    /// `CD001`, `CDW02` or `BOOT2`: another file system, or a boot descriptor.
    Other,
}

/// What a recognition sequence has, in this order.
#[derive(Clone, Copy, Debug, PartialEq, Eq)]
pub(crate) enum Stage {
    Beginning,
    Volume,
    End,
}

/// Where the identifier stands in a structure, of five bytes (ECMA-167 2/9.1.2).
const NAME: usize = 1;

const NAME_BYTES: usize = 5;

/// Where the identifier of a partition's contents stands in its descriptor, of 23 bytes (ECMA-167 3/10.5.5).
const CONTENTS: usize = 25;

/// The contents of a partition by the second edition, padded with zeros.
const SECOND_EDITION: [u8; 23] = *b"+NSR02\0\0\0\0\0\0\0\0\0\0\0\0\0\0\0\0\0";

impl Edition {
    /// The last digit of the identifier of its volume structure descriptor.
    pub fn digit(self) -> u64
        ensures { result ≡ digit_by self }
    {
        match self {
            Edition::Second => 2,
            Edition::Third => 3,
        }
    }
}

impl Structure {
    fn is_other(self) -> bool
        ensures { result ≡ is_other_structure self }
    {
        matches!(self, Structure::Other)
    }

    /// Whether it is what the sequence has at a stage.
    fn is_at(self, stage: Stage) -> bool
        ensures { result ≡ is_at_stage stage self }
    {
        match stage {
            Stage::Beginning => matches!(self, Structure::Beginning),
            Stage::Volume => matches!(self, Structure::Volume(_)),
            Stage::End => matches!(self, Structure::End),
        }
    }
}

// The structure that an identifier names, where it is known.
fn structure_of(name: &[u8]) -> Option<Structure>
    ensures { result ≡ structure_named name.now }
{
    if name == b"BEA01".as_slice() {
        return Some(Structure::Beginning);
    }
    if name == b"NSR02".as_slice() {
        return Some(Structure::Volume(Edition::Second));
    }
    if name == b"NSR03".as_slice() {
        return Some(Structure::Volume(Edition::Third));
    }
    if name == b"TEA01".as_slice() {
        return Some(Structure::End);
    }
    if name == b"CD001".as_slice() || name == b"CDW02".as_slice() || name == b"BOOT2".as_slice() {
        return Some(Structure::Other);
    }
    None
}

/// The structure that the identifier in a slot names, by the slot's first block.
pub(crate) fn structure_in(block: &[u8]) -> Option<Structure>
    requires { 512 ≤ length block.now }
    ensures { result ≡ structure_named (name_in block.now) }
{
    structure_of(&block[NAME..NAME + NAME_BYTES])
}

/// Whether a slot holds another file system or a boot descriptor, by its first block.
#[tactic(auto, using(crate::proofs::Naming::other_named, crate::proofs::Naming::none_named))]
pub(crate) fn holds_other(block: &[u8]) -> bool
    requires { 512 ≤ length block.now }
    ensures { result ≡ is_among others (name_in block.now) }
{
    match structure_in(block) {
        None => false,
        Some(structure) => structure.is_other(),
    }
}

// What comes after the first that is at a stage.
fn behind(structures: &[Structure], stage: Stage) -> &[Structure]
    ensures { result.now ≡ behind_in stage structures.now }
{
    let Some((first, rest)) = structures.split_first() else {
        return structures;
    };
    if first.is_at(stage) {
        rest
    } else {
        behind(rest, stage)
    }
}

/// Whether these have a beginning, later a volume, and later an end.
pub(crate) fn is_sequence(structures: &[Structure]) -> bool
    ensures { result ≡ is_sequence_of structures.now }
{
    behind(behind(structures, Stage::Beginning), Stage::Volume)
        .iter()
        .any(|structure| structure.is_at(Stage::End))
}

/// The digit of the first volume of these, 0 without one.
pub(crate) fn first_digit(structures: &[Structure]) -> u64
    ensures { result ≡ digit_in structures.now }
{
    match structures.split_first() {
        None => 0,
        Some((Structure::Volume(edition), _)) => edition.digit(),
        Some((_, rest)) => first_digit(rest),
    }
}

/// The edition that a partition descriptor names.
#[tactic(auto, using(crate::proofs::Naming::second_is), unfolding(udf_rules_model::specs::Recognition::wanted_digit))]
pub(crate) fn edition_of(partition: &[u8]) -> Edition
    requires { 512 ≤ length partition.now }
    ensures { digit_by result ≡ wanted_digit partition.now }
{
    if &partition[CONTENTS..CONTENTS + 23] == SECOND_EDITION.as_slice() {
        Edition::Second
    } else {
        Edition::Third
    }
}
