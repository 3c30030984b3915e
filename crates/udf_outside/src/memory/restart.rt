//! A bench in memory that is begun again: as it stands, with another script, or after a stop.
#![tactic(auto, unfolding(crate::specs::Memory::files_in, crate::specs::Memory::held_in, crate::specs::Memory::script_in, crate::specs::Undo::held_of, crate::specs::Undo::content_in))]

ghost use Rattle.std.specs.Prelude.{◌≡◌, [], length, IsTrue, ◌↔◌, IfOk};
ghost use Rattle.udf_model.specs.Bytes.{IsBytes};
ghost use Rattle.udf_outside.specs.declared.bench.Role.{Role};
ghost use Rattle.udf_outside.specs.declared.bench.Role.TheVariants.{Image, Side};
ghost use Rattle.udf_outside.specs.Stops.{content_of, bytes_of, pair_of, Now, IsSynced};
ghost use Rattle.udf_outside.specs.Memory.{files_in, held_in, script_in, unasked, synced_at, tracked_of, BeginsWith};
ghost use Rattle.udf_outside.specs.Refill.{Refills, is_spared, spared_range};
ghost use Rattle.udf_outside.specs.Script.{not_begun};

use crate::memory::file::MemFile;
use crate::memory::script::{Script, Stop};
use crate::memory::{MemBench, bench_of};
use crate::{Bench, Role};
use std::alloc::{AllocError, Global};

impl MemBench {
    /// The contents of a role.
    pub fn copy(&self, alloc: Global, role: Role) -> Result<Vec<u8>, AllocError>
        ensures { IfOk result (λ bytes. bytes.items ≡ bytes_of role (held_in self.now)) }
    {
        self.file(role).bytes().copy(alloc)
    }

    /// Whether the contents of a role are equal.
    pub fn same(&self, other: &MemBench, role: Role) -> bool
        ensures { IsTrue result ↔ (bytes_of role (held_in self.now) ≡ bytes_of role (held_in other.now)) }
    {
        self.file(role).bytes().same(other.file(role).bytes())
    }

    /// A copy, of a bench of which no call was made.
    pub fn again(&self, alloc: Global) -> Result<MemBench, AllocError>
        requires { (script_in self.now).calls ≡ 0 }
        ensures contents { IfOk result (λ bench. BeginsWith (bytes_of Image (held_in self.now)) (bytes_of Side (held_in self.now)) bench) }
        ensures script { IfOk result (λ bench. script_in bench ≡ not_begun (script_in self.now).fail (script_in self.now).stop) }
    {
        let image = self.image.file.bytes().again(alloc)?;
        let side = self.side.file.bytes().again(alloc)?;
        let fail = Vec::from_slice(alloc, self.script.fail())?;
        Ok(bench_of(alloc, image, side, Script::new(fail, self.script.stop())))
    }

    fn into_parts(self) -> (Global, MemFile, MemFile, Script)
        ensures image { result.1 ≡ tracked_of Image self }
        ensures side { result.2 ≡ tracked_of Side self }
        ensures script { result.3 ≡ script_in self }
    {
        let image = self.image;
        let side = self.side;
        (self.alloc, image.file, side.file, self.script)
    }

    /// The bench with new failures and a new stop, where no call was made.
    pub fn armed(self, fail: Vec<u64>, stop: Option<Stop>) -> MemBench
        requires { (script_in self).calls ≡ 0 }
        ensures contents { BeginsWith (bytes_of Image (held_in self)) (bytes_of Side (held_in self)) result }
        ensures script { script_in result ≡ not_begun fail.items stop }
    {
        let (alloc, image, side, _) = self.into_parts();
        bench_of(
            alloc,
            image.into_bytes(),
            side.into_bytes(),
            Script::new(fail, stop),
        )
    }

    /// What a stop now leaves, with `fill` at each pending offset but for the bytes that the stopped call wrote. The bench
    /// is spent in every case.
    pub fn restarted(self, fill: u8) -> Result<MemBench, AllocError>
        ensures bytes { IfOk result (λ bench. (role : Role) → Refills fill (content_of role (held_in self).now).pending
            (is_spared (spared_range role (script_in self).spared)) (bytes_of role (held_in self)) (bytes_of role (held_in bench))) }
        ensures now { IfOk result (λ bench. Now (held_in self) (pair_of (held_in bench))) }
        ensures begins { IfOk result (λ bench. BeginsWith (bytes_of Image (held_in bench)) (bytes_of Side (held_in bench)) bench) }
        ensures synced { IfOk result (λ bench. IsSynced (held_in bench)) }
        ensures known { IfOk result (λ bench. (role : Role) → IsBytes (bytes_of role (held_in bench))) }
        ensures script { IfOk result (λ bench. script_in bench ≡ not_begun [] None) }
    {
        let (alloc, image, side, script) = self.into_parts();
        let image = image.refilled(fill, script.spared(Role::Image))?;
        let side = side.refilled(fill, script.spared(Role::Side))?;
        let bench = bench_of(alloc, image, side, Script::new(Vec::new(alloc), None));
        bench.known();
        Ok(bench)
    }
}
