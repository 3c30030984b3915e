//! The partition maps of a logical volume descriptor (ECMA-167 3/10.7; UDF 2.50 2.2.8 to 2.2.10), and the shape that they make.
ghost use Rattle.std.specs.Prelude.{◌≡◌, ◌≤◌, ℕ, List, IfSome, drop, length, option_map};
ghost use Rattle.udf_layer.specs.Tables.{map_seen};
ghost use Rattle.udf_volume_model.specs.Maps.{begins as begins_in, kind_length, length_of as length_of_map, lone_shape as lone_shape_in, map_at, map_table as map_table_in, pair_shape as pair_shape_in, second_kind as second_kind_in, second_map, shape_of as shape_in, shape_under as shape_under_in, sparing_map as sparing_map_in, base_of, upper_of as upper_in, is_sparing_lawful as is_sparing_lawful_in};
ghost use Rattle.udf_volume_model.specs.Stated.{is_built_shape, is_lawful_shape, number_by, partition_number as number_in_maps};
ghost use Rattle.udf_volume.specs.Maps.{kind_of, kind_seen, shape_seen, sparing_in, sparing_stated, upper_seen};

use crate::offset::{MAP_COUNT, MAP_TABLE_LENGTH, MAPS};
use crate::{Descriptor, MetaMap, Shape, SparingMap, Upper};
use udf_field::Fields;

/// The types of partition maps (3/10.7.1), and their lengths in bytes.
const FIRST_TYPE: u8 = 1;

const SECOND_TYPE: u8 = 2;

const FIRST_LENGTH: usize = 6;

const SECOND_LENGTH: usize = 64;

/// Where a map of either type has its partition number.
const FIRST_NUMBER: usize = 4;

const SECOND_NUMBER: usize = 38;

/// Where a map of type 2 has its entity.
const ENTITY: usize = 4;

/// The sparing tables for which a sparable map has room, and the bytes of one before its entries (UDF 2.50 2.2.12).
const MOST_TABLES: u8 = 4;

const TABLE_HEAD: u32 = 56;

/// What a partition map makes of its partition.
#[derive(Clone, Copy, Debug, PartialEq, Eq)]
pub(crate) enum MapKind {
    Physical,
    Sparable(SparingMap),
    Metadata(MetaMap),
    Virtual,
}

// Whether a map of this type and length begins some bytes, which hold all of it.
#[tactic(auto, unfolding(udf_volume_model::specs::Maps::begins))]
fn begins(table: &[u8], kind: u8, bytes: usize) -> bool
    requires { 2 ≤ bytes }
    ensures { result ≡ begins_in kind bytes table.now }
{
    bytes <= table.len() && table[0] == kind && table[1] as usize == bytes
}

// What a sparable map says.
#[tactic(auto, using(crate::proofs::Mapped::tables_are), unfolding(udf_volume_model::specs::Maps::sparing_map))]
fn sparing_map(map: &Fields<'_>) -> SparingMap
    requires { 64 ≤ length map.now }
    ensures seen { map_seen result ≡ sparing_map_in map.now }
    ensures stated { result ≡ sparing_in map.now }
{
    SparingMap {
        packet: map.u16_at(40),
        count: map.u8_at(42),
        bytes: map.u32_at(44),
        at: [
            map.u32_at(48),
            map.u32_at(52),
            map.u32_at(56),
            map.u32_at(60),
        ],
    }
}

// What a metadata map says.
fn metadata_map(map: &Fields<'_>) -> MetaMap
    requires { 64 ≤ length map.now }
{
    MetaMap {
        main: map.u32_at(40),
        mirror: map.u32_at(44),
        bitmap: map.u32_at(48),
        unit: map.u32_at(52),
        align: map.u16_at(56),
        flags: map.u8_at(58),
    }
}

// The kind of a map of type 2, where its entity is known.
#[tactic(auto, unfolding(udf_volume_model::specs::Maps::second_kind))]
fn second_kind(map: &Fields<'_>) -> Option<MapKind>
    requires { 64 ≤ length map.now }
    ensures { option_map kind_seen result ≡ second_kind_in map.now }
{
    if map.entity_is(ENTITY, b"*UDF Sparable Partition") {
        return Some(MapKind::Sparable(sparing_map(map)));
    }
    if map.entity_is(ENTITY, b"*UDF Metadata Partition") {
        return Some(MapKind::Metadata(metadata_map(map)));
    }
    if map.entity_is(ENTITY, b"*UDF Virtual Partition") {
        return Some(MapKind::Virtual);
    }
    None
}

// The kind of the map that begins some bytes.
#[tactic(auto, using(crate::proofs::Mapped::first_kind, crate::proofs::Mapped::other_kind, crate::proofs::Mapped::no_kind, crate::proofs::Mapped::begins_fits, crate::proofs::Mapped::kinds_fit))]
fn kind_at(table: &[u8]) -> Option<MapKind>
    ensures kind { option_map kind_seen result ≡ kind_of (map_at table.now) }
    ensures inside { IfSome result (λ kind. kind_length (kind_seen kind) ≤ length table.now) }
{
    if begins(table, FIRST_TYPE, FIRST_LENGTH) {
        return Some(MapKind::Physical);
    }
    if begins(table, SECOND_TYPE, SECOND_LENGTH) {
        return second_kind(&Fields::over(table));
    }
    None
}

// The bytes of a map of a kind.
fn length_of(kind: MapKind) -> usize
    ensures { result ≡ kind_length (kind_seen kind) }
{
    match kind {
        MapKind::Physical => FIRST_LENGTH,
        _ => SECOND_LENGTH,
    }
}

// The partition number of the map that begins some bytes, as its two bytes, or no bytes.
#[tactic(auto, using(crate::proofs::Mapped::first_number, crate::proofs::Mapped::other_number, crate::proofs::Mapped::no_map, crate::proofs::Mapped::no_entity, crate::proofs::Mapped::begins_fits))]
fn number_at(table: &[u8]) -> &[u8]
    ensures { result.now ≡ number_by (map_at table.now) }
{
    if begins(table, FIRST_TYPE, FIRST_LENGTH) {
        return &table[FIRST_NUMBER..FIRST_NUMBER + 2];
    }
    if !begins(table, SECOND_TYPE, SECOND_LENGTH) {
        return &table[..0];
    }
    match second_kind(&Fields::over(table)) {
        None => &table[..0],
        Some(_) => &table[SECOND_NUMBER..SECOND_NUMBER + 2],
    }
}

// The map table of a logical volume descriptor.
#[tactic(auto, using(crate::proofs::Mapped::table_is))]
fn map_table(logical: &Descriptor) -> &[u8]
    ensures { result.now ≡ map_table_in logical.now.body }
{
    let stated = logical.fields().u32_at(MAP_TABLE_LENGTH) as usize;
    let maps = &logical.body()[MAPS..];
    &maps[..stated.min(maps.len())]
}

/// The partition number of the first map of a logical volume descriptor, as its two bytes, or no bytes.
#[tactic(auto, using(crate::proofs::Mapped::number_is))]
pub(crate) fn partition_number(logical: &Descriptor) -> &[u8]
    ensures { result.now ≡ number_in_maps logical.now.body }
{
    number_at(map_table(logical))
}

// What a map makes over a base: a metadata partition over either, a virtual one over a physical base alone.
fn upper_of(sparing: Option<SparingMap>, above: MapKind) -> Option<Upper>
    ensures { option_map upper_seen result ≡ upper_in (option_map map_seen sparing) (kind_seen above) }
{
    match (above, sparing) {
        (MapKind::Metadata(map), _) => Some(Upper::Metadata(map)),
        (MapKind::Virtual, None) => Some(Upper::Virtual),
        _ => None,
    }
}

// The shape of a base map, with this reference, under another.
fn shape_under(base: u16, below: MapKind, above: MapKind) -> Option<Shape>
    ensures { (number : List ℕ) → option_map (shape_seen number) result ≡ shape_under_in base number (kind_seen above) (base_of (kind_seen below)) }
{
    let sparing = match below {
        MapKind::Physical => None,
        MapKind::Sparable(map) => Some(map),
        MapKind::Metadata(_) | MapKind::Virtual => return None,
    };
    let upper = upper_of(sparing, above)?;
    Some(Shape {
        base,
        sparing,
        upper,
    })
}

// One map is the base.
fn lone_shape(table: &[u8]) -> Option<Shape>
    ensures { option_map (shape_seen (number_by (map_at table.now))) result ≡ lone_shape_in (map_at table.now) }
{
    let sparing = match kind_at(table)? {
        MapKind::Physical => None,
        MapKind::Sparable(map) => Some(map),
        MapKind::Metadata(_) | MapKind::Virtual => return None,
    };
    Some(Shape {
        base: 0,
        sparing,
        upper: Upper::Absent,
    })
}

// Of two maps with the same partition number one is the base, and the other stands over it.
fn pair_shape(first: &[u8], second: &[u8]) -> Option<Shape>
    ensures { option_map (shape_seen (number_by (map_at first.now))) result ≡ pair_shape_in (map_at first.now) (map_at second.now) }
{
    let below = kind_at(first)?;
    let above = kind_at(second)?;
    if number_at(first) != number_at(second) {
        return None;
    }
    match shape_under(0, below, above) {
        Some(shape) => Some(shape),
        None => shape_under(1, above, below),
    }
}

// What follows the first map of a table, or the whole table where no map begins it.
#[tactic(auto, using(crate::proofs::Mapped::nothing_passed, crate::proofs::Mapped::length_is))]
fn after_first(table: &[u8]) -> &[u8]
    ensures { result.now ≡ drop (length_of_map (map_at table.now)) table.now }
{
    match kind_at(table) {
        None => table,
        Some(kind) => &table[length_of(kind)..],
    }
}

/// The shape that the maps of a logical volume descriptor make, where they make one.
#[tactic(auto, using(crate::proofs::Mapped::other_count))]
pub(crate) fn shape_of(logical: &Descriptor) -> Option<Shape>
    ensures { option_map (shape_seen (number_in_maps logical.now.body)) result ≡ shape_in logical.now.body }
{
    let table = map_table(logical);
    let count = logical.fields().u32_at(MAP_COUNT);
    if count == 1 {
        return lone_shape(table);
    }
    if count == 2 {
        return pair_shape(table, after_first(table));
    }
    None
}

// Whether a sparable map has packets of some blocks and one to four tables, each with room for what stands before its entries.
#[tactic(auto, unfolding(udf_volume_model::specs::Maps::is_sparing_lawful))]
fn is_sparing_lawful(map: &SparingMap) -> bool
    ensures { result ≡ is_sparing_lawful_in (map_seen map.now) }
{
    1 <= map.packet && 1 <= map.count && map.count <= MOST_TABLES && TABLE_HEAD <= map.bytes
}

/// Whether the maps of a logical volume descriptor make a shape, whose base is physical or has a lawful sparable map.
pub(crate) fn has_lawful_shape(logical: &Descriptor) -> bool
    ensures { result ≡ is_lawful_shape (shape_in logical.now.body) }
{
    match shape_of(logical) {
        None => false,
        Some(shape) => match shape.sparing {
            None => true,
            Some(map) => is_sparing_lawful(&map),
        },
    }
}

/// What the first map of a logical volume descriptor says of sparing.
#[tactic(auto, using(crate::proofs::Mapped::sparing_found, crate::proofs::Mapped::no_sparing), unfolding(crate::specs::Maps::sparing_stated, udf_volume_model::specs::Maps::first_map))]
pub(crate) fn first_sparing(logical: &Descriptor) -> Option<SparingMap>
    ensures { result ≡ sparing_stated logical.now.body }
{
    let table = map_table(logical);
    match kind_at(table) {
        Some(MapKind::Sparable(_)) => Some(sparing_map(&Fields::over(table))),
        _ => None,
    }
}

/// Whether the maps of a logical volume descriptor make one partition, physical or sparable, with nothing over it.
pub(crate) fn is_built(logical: &Descriptor) -> bool
    ensures { result ≡ is_built_shape (shape_in logical.now.body) }
{
    match shape_of(logical) {
        None => false,
        Some(shape) => matches!(shape.upper, Upper::Absent),
    }
}
