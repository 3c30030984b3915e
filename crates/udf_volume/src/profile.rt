//! The profile: what the kept descriptors must state.
ghost use Rattle.std.specs.Prelude.{◌≡◌, ◌≤◌, ◌+◌, length};
ghost use Rattle.udf_volume_model.specs.Profile.{states_block_size, states_domain, states_revision, has_pointer as pointer_in, is_absent as absent_in, names_no_tables as no_tables_in};
ghost use Rattle.udf_volume.specs.Leads.{IsLeading};
ghost use Rattle.udf_volume.specs.Opened.{unlike_profile as unlike, unlike_maps as unlike_maps_in};

use crate::descriptor::POINTER;
use crate::kept::has_descriptor;
use crate::leading::Leading;
use crate::maps::{has_lawful_shape, is_built};
use crate::offset::{
    BLOCK_SIZE, DOMAIN, FREED_BITMAP, FREED_TABLE, INTEGRITY_TABLE, REVISION, SPACE_TABLE,
};
use crate::{Descriptor, ProfileItem};
use udf_field::Fields;

/// The least and the greatest revision (UDF 2.1.5.3).
const LEAST_REVISION: u16 = 0x0100;

const GREATEST_REVISION: u16 = 0x0260;

/// The identifier of the domain (UDF 2.1.5.2), padded with zeros.
const DOMAIN_IDENTIFIER: [u8; 23] = *b"*OSTA UDF Compliant\0\0\0\0";

fn has_block_size(logical: &Descriptor, size: u32) -> bool
    ensures { result ≡ states_block_size size logical.now.body }
{
    logical.fields().u32_at(BLOCK_SIZE) == size
}

#[tactic(auto, using(crate::proofs::Profiled::domain_is))]
fn has_domain(logical: &Descriptor) -> bool
    ensures { result ≡ states_domain logical.now.body }
{
    &logical.body()[DOMAIN..DOMAIN + 23] == DOMAIN_IDENTIFIER.as_slice()
}

fn has_revision(logical: &Descriptor) -> bool
    ensures { result ≡ states_revision logical.now.body }
{
    let revision = logical.fields().u16_at(REVISION);
    LEAST_REVISION <= revision && revision <= GREATEST_REVISION
}

#[tactic(auto, unfolding(udf_volume_model::specs::Profile::is_absent))]
fn is_absent(fields: &Fields<'_>, at: usize) -> bool
    requires { at + 8 ≤ length fields.now }
    ensures { result ≡ absent_in fields.now (at + 16) }
{
    fields.short_at(at).length == 0
}

// Whether the partition's header names no space table, no integrity table and no freed space.
#[tactic(auto, unfolding(udf_volume_model::specs::Profile::names_no_tables))]
fn names_no_tables(partition: &Fields<'_>) -> bool
    requires { 496 ≤ length partition.now }
    ensures { result ≡ no_tables_in partition.now }
{
    is_absent(partition, SPACE_TABLE)
        && is_absent(partition, INTEGRITY_TABLE)
        && is_absent(partition, FREED_TABLE)
        && is_absent(partition, FREED_BITMAP)
}

// What the maps and the partition's header have that this profile has not.
fn unlike_maps(list: &[Descriptor], leading: &Leading) -> Option<ProfileItem>
    requires { IsLeading list.now leading.now }
    ensures { result ≡ unlike_maps_in list.now }
{
    let logical = &list[leading.logical];
    if !has_lawful_shape(logical) {
        return Some(ProfileItem::PartitionMaps);
    }
    let Some(at) = leading.partition else {
        return Some(ProfileItem::PartitionMaps);
    };
    let partition = &list[at];
    if !is_built(logical) {
        return Some(ProfileItem::Unbuilt);
    }
    if names_no_tables(&partition.fields()) {
        None
    } else {
        Some(ProfileItem::SpaceTables)
    }
}

#[tactic(auto, unfolding(udf_volume_model::specs::Profile::has_pointer))]
fn has_pointer(list: &[Descriptor]) -> bool
    ensures { result ≡ pointer_in list.now }
{
    has_descriptor(list, POINTER)
}

/// The first test of the profile that kept descriptors fail, by those that lead them.
pub(crate) fn unlike_profile(
    list: &[Descriptor],
    leading: &Leading,
    size: u32,
) -> Option<ProfileItem>
    requires { IsLeading list.now leading.now }
    ensures { result ≡ unlike size list.now }
{
    let logical = &list[leading.logical];
    if !has_block_size(logical, size) {
        return Some(ProfileItem::BlockSize);
    }
    if !has_domain(logical) {
        return Some(ProfileItem::Domain);
    }
    if !has_revision(logical) {
        return Some(ProfileItem::Revision);
    }
    if has_pointer(list) {
        return Some(ProfileItem::VolumePointer);
    }
    unlike_maps(list, leading)
}
