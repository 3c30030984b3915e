// Where the addresses of a volume's image stand.
ghost use Rattle.std.specs.Prelude.{◌≡◌, ℕ, List};
ghost use Rattle.udf_volume_model.specs.Areas.{table_or_none};
ghost use Rattle.udf_volume.specs.declared.opened.Opened.{Opened};
ghost use Rattle.udf_volume.specs.Areas.{partition_stated};
ghost use Rattle.udf_volume.specs.Taken.{IsOpenedOf};
ghost use Rattle.udf_rules_model.specs.Places.{place_by, place_of};

/// Of a volume that was opened of an image, the partition and the sparing table place the blocks of the partition as the image does.
pub fn partitions_law()
    ensures { (image : List ℕ) (opened : Opened) → IsOpenedOf image opened
        → place_by (partition_stated opened.volume) (table_or_none opened.layout.table) ≡ place_of opened.volume.size image }
{}
