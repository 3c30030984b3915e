//! What of a volume's files a check and a repair work from.
ghost use Rattle.std.specs.Prelude.{◌≡◌, ◌⊎◌, ◌<◌, [], true, IfErr, IfOk};
ghost use Rattle.udf_model.specs.Size.{is_size};
ghost use Rattle.udf_outside.specs.Stops.{bytes_of};
ghost use Rattle.udf_outside.specs.Reads.{OnlyReads};
ghost use Rattle.udf_outside.specs.declared.bench.Role.TheVariants.{Image};
ghost use Rattle.udf_volume_model.specs.Areas.{table_or_none};
ghost use Rattle.udf_volume.specs.Taken.{IsOpenOver, IsOpenedOf};
ghost use Rattle.udf_files.specs.Files.{AreOverVolume, FindsFiles};
ghost use Rattle.udf_files.specs.Refusal.{RefusesTheFiles};

use std::alloc::Global;
use udf_integrity::integrity_of;
use udf_layer::{One, SparingTable};
use udf_outside::Bench;
use udf_partitions::{Base, partitions};
use udf_tree::{Survey, survey};
use udf_volume::{FileSet, LayerStop, Opened, Volume, file_set};

/// A volume with its files.
#[derive(Drop)]
pub struct Files {
    pub volume: Volume,
    /// Where its addresses stand.
    pub parts: One<Base>,
    pub set: FileSet,
    pub survey: Survey,
}

// Sees that the packets of a sparing table have blocks, where there is a table.
fn see_packets(table: &Option<SparingTable>)
    ensures { ((table_or_none table.now).pairs ≡ []) ⊎ (0 < (table_or_none table.now).packet) }
{
    if let Some(table) = table {
        let _blocks = table.packet();
    }
}

/// The files of a volume that was opened of the image, or the first refusal: `Profile(IntegrityChain)` where the prevailing integrity
/// descriptor names a further extent of them (ECMA-167 3/10.10.4), and what `file_set` and `survey` refuse. The integrity sequence,
/// the file set and the entries are read, each block once but for what `survey` says.
pub fn files_of<B: Bench>(alloc: Global, bench: &mut B, opened: Opened) -> Result<Files, LayerStop>
    requires over { IsOpenOver opened (B.files bench.old) }
    requires size { is_size opened.volume.size ≡ true }
    requires opened { B.tells → IsOpenedOf (bytes_of Image (B.held bench.old)) opened }
    ensures answers { B.tells → FindsFiles opened.volume (bytes_of Image (B.held bench.old)) result }
    ensures over { IfOk result (AreOverVolume opened.volume) }
    ensures refusal { IfErr result RefusesTheFiles }
    ensures reads { OnlyReads B.files B.held B.faults bench.old bench.new LayerStop.Fault result }
{
    let Opened { volume, layout } = opened;
    let mut block = vec![in alloc; 0u8; volume.size as usize]?;
    integrity_of(bench, &volume, &mut block)?;
    see_packets(&layout.table);
    let parts = partitions(&volume, layout.table);
    let set = file_set(alloc, bench, &volume, &parts)?;
    let survey = survey(alloc, bench, &parts, volume.size, &set)?;
    Ok(Files {
        volume,
        parts,
        set,
        survey,
    })
}
