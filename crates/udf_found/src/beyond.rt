// What of found entries this profile has not.
ghost use Rattle.std.specs.Prelude.{◌≡◌, IfSome};
ghost use Rattle.udf_file_model.specs.Entry.{Entry};
ghost use Rattle.udf_found.specs.Beyond.{IsOfEntry, beyond_of, item_of, joined, nothing, only_indirect, without_links};

use udf_entry::Entry;
use udf_layer::ProfileItem;

// The strategy of an entry without a hierarchy of entries (ECMA-167 4/14.6.2).
const STRATEGY: u16 = 4;

// The kind of extended allocation descriptors (ECMA-167 4/14.6.8).
const EXTENDED: u8 = 2;

/// What was seen of some entries, and of the addresses to which their links lead.
#[derive(Clone, Copy, Debug, PartialEq, Eq)]
pub(crate) struct Beyond {
    /// An entry of another strategy.
    pub strategy: bool,
    /// A link to an indirect entry (ECMA-167 4/14.7).
    pub indirect: bool,
    /// An entry with extended allocation descriptors.
    pub extended_descriptors: bool,
    /// An entry whose extended attributes stand in a file of their own (ECMA-167 4/14.9.16).
    pub attribute_file: bool,
}

impl Beyond {
    /// Nothing of it.
    pub(crate) fn none() -> Self
        ensures { result ≡ nothing }
    {
        Beyond {
            strategy: false,
            indirect: false,
            extended_descriptors: false,
            attribute_file: false,
        }
    }

    /// A link to an indirect entry alone.
    pub(crate) fn indirect() -> Self
        ensures { result ≡ only_indirect }
    {
        Beyond {
            indirect: true,
            ..Beyond::none()
        }
    }

    /// What one entry has of it.
    pub(crate) fn of(entry: &Entry<'_>) -> Self
        ensures { result ≡ beyond_of entry.now }
    {
        Beyond {
            strategy: entry.strategy() != STRATEGY,
            indirect: false,
            extended_descriptors: entry.kind() == EXTENDED,
            attribute_file: entry.attributes().length != 0,
        }
    }

    /// Without what links led to.
    pub(crate) fn without_links(self) -> Self
        ensures { result ≡ without_links self }
    {
        Beyond {
            indirect: false,
            ..self
        }
    }

    /// Both together.
    pub(crate) fn with(self, other: Beyond) -> Self
        ensures { result ≡ joined self other }
    {
        Beyond {
            strategy: self.strategy || other.strategy,
            indirect: self.indirect || other.indirect,
            extended_descriptors: self.extended_descriptors || other.extended_descriptors,
            attribute_file: self.attribute_file || other.attribute_file,
        }
    }

    /// The first item for which the volume is refused.
    pub(crate) fn item(self) -> Option<ProfileItem>
        ensures first { result ≡ item_of self }
        ensures named { IfSome result IsOfEntry }
    {
        if self.strategy || self.indirect {
            Some(ProfileItem::Strategy)
        } else if self.extended_descriptors {
            Some(ProfileItem::ExtendedDescriptors)
        } else if self.attribute_file {
            Some(ProfileItem::AttributeFile)
        } else {
            None
        }
    }
}
