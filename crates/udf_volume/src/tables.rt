//! The verdict of the rule on sparing tables (UDF 2.50 2.2.12): which of the tables that a volume's map lists prevails, and which do
//! not agree with it. It reads each table at most twice.
ghost use Rattle.std.specs.Prelude.{IfOk};
ghost use Rattle.udf_outside.specs.Stops.{bytes_of};
ghost use Rattle.udf_outside.specs.Reads.{OnlyReads};
ghost use Rattle.udf_outside.specs.declared.bench.Role.TheVariants.{Image};
ghost use Rattle.udf_volume.specs.Laid.{IsLaidOut};
ghost use Rattle.udf_volume.specs.Over.{IsOver};
ghost use Rattle.udf_volume.specs.Verdicts.{HasTables, JudgesTables};

use crate::{TableVerdict, Volume, WorkStop};
use std::alloc::Global;
use udf_outside::Bench;

/// The verdict of the rule on sparing tables on a volume. One that is not sparable has none.
#[tactic(auto, using(crate::proofs::Deviating::no_map_judges, crate::proofs::Deviating::no_map_has, crate::proofs::Deviating::map_judges))]
pub fn table_verdict<B: Bench>(
    alloc: Global,
    bench: &mut B,
    volume: &Volume,
) -> Result<TableVerdict, WorkStop>
    requires over { IsOver volume.now (B.files bench.old) }
    requires laid { IsLaidOut volume.now }
    ensures verdict { B.tells → IfOk result (JudgesTables volume.now (bytes_of Image (B.held bench.old))) }
    ensures tables { IfOk result (HasTables volume.now) }
    ensures reads { OnlyReads B.files B.held B.faults bench.old bench.new WorkStop.Fault result }
{
    match &volume.shape.sparing {
        None => Ok(TableVerdict::none(alloc)),
        Some(map) => udf_layer::table_verdict(alloc, bench, volume.size, map),
    }
}
