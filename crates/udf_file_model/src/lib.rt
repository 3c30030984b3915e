//! The definitions of files: where addresses stand; entries, their lists of blocks, contents and what a cut leaves of them, over
//! a disk and those places; file identifier descriptors (FIDs), the scan of a directory's content, packed contents and when
//! names are the same, in the terms of ECMA-167 part 4 and OSTA UDF 2.1. The code of this crate is laws alone: functions with
//! an empty body whose contract says what the definitions mean. It stands on the definitions of tags, fields and texts.
#![tactic(auto)]

ghost use Rattle.std.specs.Prelude.{◌≡◌, ◌≢◌, ℕ, ◌*◌, ◌^◌, ◌≤◌, ◌<◌, ◌%◌, ◌++◌, ◌∷◌, ◌↔◌, ◌⊎◌, List, [], Some, length, take, drop, true, false, All, AllPairs, Contains, slice_index};
ghost use Rattle.std.specs.declared.cmp.Ordering.TheVariants.{Equal};
ghost use Rattle.udf_file_model.specs.Fid.{Begins, IsFid, fid_at, fid_bytes, is_live, is_parent, target};
ghost use Rattle.udf_file_model.specs.Anew.{CanName, named_anew};
ghost use Rattle.udf_field.specs.declared.address.Addr.{Addr};
ghost use Rattle.udf_file_model.specs.Scan.{IsScan, Placed, fids, fids_of, offsets};
ghost use Rattle.udf_file_model.specs.Pack.{IsPacking, IsWholeContent, Packing, fids_at, packed, placed_from};
ghost use Rattle.udf_model.specs.Bytes.{IsBytes};
ghost use Rattle.udf_file_model.specs.Entry.{Entry, entry_in, entry_of, extent_body};
ghost use Rattle.udf_file_model.specs.Pieces.{IsAmong, size_of};
ghost use Rattle.udf_file_model.specs.Front.{nothing_yet};
ghost use Rattle.udf_file_model.specs.Listing.{Volume, addresses, extent_at, is_extent, is_good_for, is_placed, list_for, rules_for, with_disk};
ghost use Rattle.udf_file_model.specs.Cut.{HasRoom, cut_pieces};
ghost use Rattle.udf_file_model.specs.CutBody.{HasExtent, extent_with};
ghost use Rattle.udf_file_model.specs.CutEntry.{AreBytes, IsCut, cut_entry};
ghost use Rattle.udf_file_model.specs.Wanted.{Fits, HasEntry, Wanted, entry_identified, entry_linked, entry_streamless, entry_with, mended, own, with_cut, with_id, with_links, with_no_stream};
ghost use Rattle.udf_file_model.specs.Place.{IsPlacedFront, Place, placed_front};
ghost use Rattle.udf_file_model.specs.Name.{Canonical, IsSameName, canonical, canonical_cmp};

/// The entry's own block and the addresses of its list are pairwise different, and those of the list are placed. A good list
/// rests on its entry's block and its allocation extents alone; one that fails also on what is no whole extent. An embedded
/// entry has no list, and nothing of that fails.
pub fn list_law()
    ensures apart { (v : Volume) (a : Addr) (e : Entry) → 0 < v.size → AllPairs (λ x y. x ≢ y) (a ∷ addresses v.size (list_for v a e)) }
    ensures placed { (v : Volume) (a : Addr) (e : Entry) → 0 < v.size
        → All (λ x. is_placed v x ≡ true) (addresses v.size (list_for v a e)) }
    ensures local { (v : Volume) (disk : ℕ → List ℕ) (a : Addr) (e : Entry) → is_good_for v a e ≡ true
        → ((x : Addr) → IsAmong x (list_for v a e) → extent_at v x ≡ extent_at (with_disk v disk) x)
        → (list_for (with_disk v disk) a e ≡ list_for v a e) × (is_good_for (with_disk v disk) a e ≡ true) }
    ensures failing { (v : Volume) (disk : ℕ → List ℕ) (a : Addr) (e : Entry)
        → ((x : Addr) → IsAmong x (list_for v a e) ⊎ (is_extent v x ≡ false) → extent_at v x ≡ extent_at (with_disk v disk) x)
        → (list_for (with_disk v disk) a e ≡ list_for v a e) × (is_good_for (with_disk v disk) a e ≡ is_good_for v a e) }
    ensures embedded { (v : Volume) (a : Addr) (e : Entry) → e.kind ≡ 3 → (list_for v a e ≡ []) × (is_good_for v a e ≡ true) }
{}

/// The list of an entry that is cut to some bytes of it, and whose allocation extents are cut with it, is the list cut to
/// those bytes, and nothing of it fails.
pub fn cut_law()
    ensures { (v : Volume) (disk : ℕ → List ℕ) (a : Addr) (e : Entry) (b : ℕ) → 0 < v.size → AreBytes v.disk → IsBytes e.body
        → e.kind ≢ 3 → b ≤ size_of (list_for v a e) → HasRoom (rules_for v a e) nothing_yet b (list_for v a e) → IsCut v disk a e b
        → (list_for (with_disk v disk) a (cut_entry a b e) ≡ cut_pieces b (list_for v a e))
        × (is_good_for (with_disk v disk) a (cut_entry a b e) ≡ true) }
{}

/// An entry's block with wanted values is readable and states them, and all else as it was.
pub fn wanted_law()
    ensures wanted { (at header : ℕ) (block : List ℕ) (w : Wanted) → HasEntry at header block → Fits header w block
        → entry_of at (entry_with at header w block) ≡ Some (mended w (entry_in header block)) }
    ensures links { (at header n : ℕ) (block : List ℕ) → HasEntry at header block → n < 2 ^ 16
        → entry_of at (entry_with at header (with_links n (own header block)) block) ≡ Some (entry_linked n (entry_in header block)) }
    ensures id { (at header n : ℕ) (block : List ℕ) → HasEntry at header block → n < 2 ^ 64
        → entry_of at (entry_with at header (with_id n (own header block)) block) ≡ Some (entry_identified n (entry_in header block)) }
    ensures stream { (at header : ℕ) (block : List ℕ) → HasEntry at header block
        → entry_of at (entry_with at header (with_no_stream (own header block)) block)
        ≡ Some (entry_streamless (entry_in header block)) }
    ensures cut { (at header n : ℕ) (block body : List ℕ) → HasEntry at header block → n < 2 ^ 64 → IsBytes body
        → length body ≤ length (entry_in header block).body
        → entry_of at (entry_with at header (with_cut n body (own header block)) block)
        ≡ Some (record (entry_in header block) { information = n; body = body }) }
    ensures same_length { (at header : ℕ) (block : List ℕ) (w : Wanted) → HasEntry at header block → Fits header w block
        → length (entry_with at header w block) ≡ length block }
    ensures bytes { (at header : ℕ) (block : List ℕ) (w : Wanted) → HasEntry at header block → Fits header w block
        → IsBytes (entry_with at header w block) }
{}

/// An allocation extent with fewer bytes of descriptors is whole, and has them.
pub fn extent_law()
    ensures { (at : ℕ) (block old body : List ℕ) → HasExtent at block old → IsBytes body → length body ≤ length old
        → extent_body at (extent_with at body block) ≡ Some body }
{}

/// The FID that begins some bytes is found there, and rests on its own bytes alone. Its length is a multiple of four and
/// at least 40, and it is never both live and a parent.
pub fn fid_law()
    ensures found { (size : ℕ) (bytes fid : List ℕ) → (fid_at size bytes ≡ Some fid) ↔ Begins size bytes fid }
    ensures own_bytes { (size : ℕ) (fid rest : List ℕ) → IsFid size fid → fid_at size (fid ++ rest) ≡ Some fid }
    ensures same_bytes { (size at : ℕ) (content other fid : List ℕ) → fid_at size (drop at content) ≡ Some fid
        → take (length fid) (drop at other) ≡ fid → fid_at size (drop at other) ≡ Some fid }
    ensures long { (size : ℕ) (fid : List ℕ) → IsFid size fid → (40 ≤ length fid) × (length fid % 4 ≡ 0) }
    ensures apart { (fid : List ℕ) → is_parent fid ≡ true → is_live fid ≡ false }
{}

/// The scan of a content is the one list that has each whole FID at a multiple of four but those that begin within a
/// listed one. Its offsets ascend, each FID has at least 40 bytes of the content, and the FID at a listed offset is the one whose
/// bytes are there.
pub fn scan_law()
    ensures listed { (size : ℕ) (content : List ℕ) → IsScan size content (fids size content) }
    ensures one { (size : ℕ) (content : List ℕ) (list : List Placed) → IsScan size content list → list ≡ fids size content }
    ensures ascending { (size : ℕ) (content : List ℕ) → AllPairs (λ a b. a < b) (offsets (fids size content)) }
    ensures few { (size : ℕ) (content : List ℕ) → 40 * length (fids size content) ≤ length content }
    ensures bytes { (size at : ℕ) (content fid : List ℕ) → Contains (fids size content) (at, fid) → fid_bytes (drop at content) ≡ fid }
    ensures chosen { (size : ℕ) (content at : List ℕ) → All (Contains (offsets (fids size content))) at
        → All (IsFid size) (fids_at content at) }
{}

/// Packed FIDs are a whole content, and its scan gives them back, each at the offset at which packing puts it. Whole FIDs
/// alone make a whole content.
pub fn packed_law()
    ensures scanned { (size : ℕ) (list : List (List ℕ)) → All (IsFid size) list → fids size (packed list) ≡ placed_from 0 list }
    ensures whole { (size : ℕ) (list : List (List ℕ)) → All (IsFid size) list → IsWholeContent size (packed list) }
    ensures only { (size : ℕ) (content : List ℕ) → IsWholeContent size content
        → (list : List (List ℕ)) × All (IsFid size) list × (content ≡ packed list) }
    ensures same { (list : List (List ℕ)) → fids_of (placed_from 0 list) ≡ list }
{}

/// There is one packing of a parent FID and a list of FIDs within a limit, and its scan gives the parent FID and then as
/// many of the others as were taken.
pub fn packing_law()
    ensures one { (parent : List ℕ) (list : List (List ℕ)) (limit : ℕ) (a b : Packing)
        → IsPacking parent list limit a → IsPacking parent list limit b → a ≡ b }
    ensures scanned { (size : ℕ) (parent : List ℕ) (list : List (List ℕ)) (limit : ℕ) (packing : Packing)
        → IsFid size parent → All (IsFid size) list → IsPacking parent list limit packing
        → fids size packing.bytes ≡ placed_from 0 (parent ∷ take packing.taken list) }
{}

/// A FID that is made to name another address is a whole FID that names it, and nothing behind its tag but the address is
/// new: it is a parent FID, or live, where it was.
pub fn anew_law()
    ensures whole { (size : ℕ) (fid : List ℕ) (at : Addr) → CanName size fid at → IsFid size (named_anew at fid) }
    ensures names { (size : ℕ) (fid : List ℕ) (at : Addr) → CanName size fid at → (target (named_anew at fid)).at ≡ at }
    ensures rest { (size : ℕ) (fid : List ℕ) (at : Addr) → CanName size fid at → (k : ℕ) → 16 ≤ k → (k < 24) ⊎ (30 ≤ k)
        → slice_index (named_anew at fid) k ≡ slice_index fid k }
    ensures parent { (size : ℕ) (fid : List ℕ) (at : Addr) → CanName size fid at → is_parent (named_anew at fid) ≡ is_parent fid }
    ensures live { (size : ℕ) (fid : List ℕ) (at : Addr) → CanName size fid at → is_live (named_anew at fid) ≡ is_live fid }
{}

/// To be the same name is an equivalence, and what is canonical of a name tells it from all others.
pub fn name_law()
    ensures canonical { (a b : List ℕ) → IsSameName a b ↔ (canonical a ≡ canonical b) }
    ensures itself { (a : List ℕ) → IsSameName a a }
    ensures either_way { (a b : List ℕ) → IsSameName a b → IsSameName b a }
    ensures along { (a b c : List ℕ) → IsSameName a b → IsSameName b c → IsSameName a c }
{}

/// The order of canonical names finds equal only what is equal.
pub fn order_law()
    ensures { (a b : Canonical) → (canonical_cmp a b ≡ Equal) ↔ (a ≡ b) }
{}

/// The front of some blocks that is placed is one number: so many are placed, and they are all or the next is not.
pub fn place_law()
    ensures { (place : Place) (block blocks n : ℕ) → IsPlacedFront place block blocks n ↔ (placed_front place block blocks ≡ n) }
{}
