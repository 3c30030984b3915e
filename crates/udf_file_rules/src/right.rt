// What an integrity descriptor is to state (UDF 2.2.6).
ghost use Rattle.std.specs.Prelude.{◌≡◌, ◌+◌, ◌<◌, ◌^◌, ◌==◌, ◌&&◌, ◌||◌};
ghost use Rattle.udf_file_rules.specs.Right.{free_by, is_right, next_id_by};

use crate::tally::Tally;
use udf_integrity::Integrity;

/// The type of a closed descriptor (ECMA-167 3/10.10.3).
const CLOSED: u32 = 1;

/// What a descriptor is to count.
#[derive(Clone, Copy, Debug, PartialEq, Eq)]
pub struct Right {
    pub tally: Tally,
    /// The fitted FIDs of ordinary directories that name no directories, which may count as files too.
    pub files_named: u64,
    /// The free blocks of the partition, where it has a bitmap.
    pub free: Option<u32>,
    /// The blocks of the partition.
    pub blocks: u32,
}

impl Right {
    // Whether a descriptor counts the files, in one of the two ways, and the directories.
    fn has_files(&self, stated: &Integrity) -> bool
        ensures { result ≡ (((stated.now.files == self.now.tally.files) || (stated.now.files == self.now.files_named)) && (stated.now.directories == self.now.tally.directories)) }
    {
        let files = stated.files as u64;
        (files == self.tally.files || files == self.files_named)
            && stated.directories as u64 == self.tally.directories
    }

    fn has_free(&self, stated: &Integrity) -> bool
        ensures { result ≡ free_by self.now.free stated.now.free }
    {
        match self.free {
            None => true,
            Some(free) => stated.free == free,
        }
    }

    /// Whether a descriptor is closed, and all that it counts is right.
    pub fn is_stated(&self, stated: &Integrity) -> bool
        ensures { result ≡ is_right self.now stated.now }
    {
        stated.kind == CLOSED
            && stated.is_formed()
            && self.has_free(stated)
            && stated.blocks == self.blocks
            && self.tally.allows(stated.next_id)
            && self.has_files(stated)
    }

    /// The next identifier after the mend of a descriptor: the one that it states where that is right, else the least that is.
    pub fn next_id(&self, stated: &Integrity) -> u64
        ensures { self.now.tally.greatest_id + 1 < 2 ^ 64 → result ≡ next_id_by self.now stated.now }
    {
        if stated.is_formed() && self.tally.allows(stated.next_id) {
            stated.next_id
        } else {
            self.tally.least_next()
        }
    }
}
