// File entries.
ghost use Rattle.std.specs.Prelude.{◌≡◌, ◌≤◌, length};
ghost use Rattle.udf_file_model.specs.Entry.{entry_of, is_directory};
ghost use Rattle.udf_entry.specs.Bits.{bits_of};

use crate::IcbFlags;
use crate::header::{EXTENDED_BYTES, header_at, kind_in};
use bitflags::Flags;
use std::marker::Model;
use udf_field::{Fields, Long};

// Offsets of an entry's fields (ECMA-167 4/14.9 and 4/14.17).
const STRATEGY_AT: usize = 20;

const FILE_TYPE_AT: usize = 27;

const FLAGS_AT: usize = 34;

const LINKS_AT: usize = 48;

const INFORMATION_AT: usize = 56;

const ATTRIBUTES_AT: usize = 112;

const EXTENDED_ATTRIBUTES_AT: usize = 136;

const STREAM_AT: usize = 152;

// File types of a directory and of a stream directory (ECMA-167 4/14.6.6).
const DIRECTORY: u8 = 4;

const STREAM_DIRECTORY: u8 = 13;

/// A readable file entry in the block that it borrows: a file entry (ECMA-167 4/14.9) or an extended one (4/14.17).
#[derive(Drop)]
pub struct Entry<'a> {
    block: &'a [u8],
    header: usize,
}

impl<'a> Model for Entry<'a> {
    ghost use Rattle.udf_file_model.specs.Entry.{Entry, entry_in};
    ghost use Rattle.udf_entry.specs.Opened.{IsOpened};

    ghost Value = { Entry };

    ghost view = { λ e. entry_in e.header e.block.now };

    ghost invariant = { λ e. IsOpened e.header e.block.now };
}

impl<'a> Entry<'a> {
    /// The file type (ECMA-167 4/14.6.6).
    pub fn file_type(&self) -> u8
        ensures { result ≡ self.now.file_type }
    {
        Fields::over(self.block).u8_at(FILE_TYPE_AT)
    }

    /// Whether it is a directory or a stream directory.
    pub fn is_directory(&self) -> bool
        ensures { result ≡ is_directory self.now }
    {
        let file_type = self.file_type();
        file_type == DIRECTORY || file_type == STREAM_DIRECTORY
    }

    /// The kind of its allocation descriptors: 0 short, 1 long, 2 extended, 3 embedded content (ECMA-167 4/14.6.8).
    pub fn kind(&self) -> u8
        ensures { result ≡ self.now.kind }
    {
        kind_in(self.block)
    }

    /// The flags of its ICB tag.
    pub fn flags(&self) -> IcbFlags
        ensures { bits_of result ≡ self.now.flags }
    {
        IcbFlags::from_bits_retain(Fields::over(self.block).u16_at(FLAGS_AT))
    }

    /// The strategy by which its ICB is recorded (ECMA-167 4/14.6.2).
    pub fn strategy(&self) -> u16
        ensures { result ≡ self.now.strategy }
    {
        Fields::over(self.block).u16_at(STRATEGY_AT)
    }

    /// The file link count (ECMA-167 4/14.9.6).
    pub fn links(&self) -> u16
        ensures { result ≡ self.now.links }
    {
        Fields::over(self.block).u16_at(LINKS_AT)
    }

    /// The information length in bytes (ECMA-167 4/14.9.10).
    pub fn info_length(&self) -> u64
        ensures { result ≡ self.now.information }
    {
        Fields::over(self.block).u64_at(INFORMATION_AT)
    }

    /// The unique identifier (ECMA-167 4/14.9.18).
    pub fn id(&self) -> u64
        ensures { result ≡ self.now.id }
    {
        Fields::over(self.block).u64_at(self.header - 16)
    }

    /// The ICB of its extended attributes (ECMA-167 4/14.9.16 and 4/14.17.19).
    pub fn attributes(&self) -> Long
        ensures { result ≡ self.now.attributes }
    {
        let fields = Fields::over(self.block);
        if self.header == EXTENDED_BYTES {
            fields.long_at(EXTENDED_ATTRIBUTES_AT)
        } else {
            fields.long_at(ATTRIBUTES_AT)
        }
    }

    /// The ICB of its stream directory (ECMA-167 4/14.17.20); a file entry that is not extended has none.
    pub fn stream(&self) -> Option<Long>
        ensures { result ≡ self.now.stream }
    {
        if self.header == EXTENDED_BYTES {
            Some(Fields::over(self.block).long_at(STREAM_AT))
        } else {
            None
        }
    }

    /// Its allocation descriptors, or its embedded content.
    #[tactic(auto, unfolding(udf_file_model::specs::Entry::body_of))]
    pub fn body(&self) -> &'a [u8]
        ensures body { result.now ≡ self.now.body }
        ensures short { length result.now ≤ 4294967295 }
    {
        let fields = Fields::over(self.block);
        let start = self.header + fields.u32_at(self.header - 8) as usize;
        let (_, rest) = self.block.split_at(start);
        let (body, _) = rest.split_at(fields.u32_at(self.header - 4) as usize);
        body
    }
}

/// The readable entry in a block at a location, which is its block's number in its partition.
#[tactic(auto, unfolding(udf_file_model::specs::Entry::entry_of))]
pub fn read_entry(block: &[u8], location: u32) -> Option<Entry<'_>>
    ensures { result ≡ entry_of location block.now }
{
    let header = header_at(block, location)?;
    Some(Entry { block, header })
}
