//! A bench in memory meets the trait of benches, and each of its calls fails exactly where its script or want of memory
//! makes it fail.
#![tactic(auto, unfolding(crate::specs::Memory::files_in, crate::specs::Memory::held_in, crate::specs::Memory::script_in, crate::specs::Undo::held_of, crate::specs::Undo::content_in))]

ghost use Rattle.std.specs.Prelude.{◌≡◌, ◌⊎◌, ℕ, ◌+◌, ◌≤◌, length as length_of, OnOk, OnErr, IfOk, is_ok, None, Some};
ghost use Rattle.udf_model.specs.Bytes.{IsBytes};
ghost use Rattle.udf_outside.specs.declared.bench.Role.{Role};
ghost use Rattle.udf_outside.specs.declared.memory.script.Turn.{Turn};
ghost use Rattle.udf_outside.specs.Causes.{HasCause};
ghost use Rattle.udf_outside.specs.Files.{file_of, IsAttached, IsWritable, Attaches, Resizes};
ghost use Rattle.udf_outside.specs.Stops.{bytes_of, slice_of, Writes, Syncs};
ghost use Rattle.udf_outside.specs.Memory.{files_in, held_in, script_in, CarriesOut};
ghost use Rattle.udf_outside.specs.Script.{Takes, Follows, after_call, after_want, with_write};

use crate::memory::script::Turn;
use crate::memory::{MemBench, MemSlot};
use crate::{Access, Bench, Failed, Role};
use std::alloc::AllocError;

/// What was asked of a file, and whether it is attached.
fn ask(slot: &mut MemSlot, name: Option<String>, access: Access, attached: bool)
    ensures { slot.new ≡ record slot.old { name = name; asked = Some access; attached = attached } }
{
    slot.name = name;
    slot.asked = Some(access);
    slot.attached = attached;
}

impl Bench for MemBench {
    ghost use Rattle.udf_outside.specs.Memory.{files_in, held_in, script_in};
    ghost use Rattle.udf_outside.specs.Sizes.{sizes_in};

    ghost tells = { Unit {0} };

    ghost files = { files_in };

    ghost held = { held_in };

    ghost faults = { λ bench. (script_in bench).faults };

    ghost sizes = { λ bench role told attached. sizes_in bench role };

    fn known(&self)
        ensures { (role : Role) → IsBytes (bytes_of role (held_in self.now)) }
    {
        self.image.file.known();
        self.side.file.known();
    }

    fn attach(&mut self, role: Role, name: &str, access: Access) -> Result<(), Failed>
        ensures asked { Attaches role name.now access (is_ok result) (files_in self.old) (files_in self.new) }
        ensures named { ((file_of role (files_in self.new)).name ≡ Some name.now) ⊎ (script_in self.new ≡ after_want (after_call (script_in self.old))) }
        ensures held { held_in self.new ≡ held_in self.old }
        ensures cause { HasCause (script_in self.old).faults (script_in self.new).faults result }
        ensures calm { OnOk result ((script_in self.new).faults ≡ (script_in self.old).faults) }
        ensures script { Follows (script_in self.old) (after_call (script_in self.old)) (script_in self.new) result }
    {
        let turn = self.script.turn();
        let told = String::from_str(self.alloc, name);
        let found = if told.is_ok() {
            Ok(())
        } else {
            Err(AllocError)
        };
        let answer = self.script.answer(turn, found);
        match role {
            Role::Image => ask(&mut self.image, told.ok(), access, answer.is_ok()),
            Role::Side => ask(&mut self.side, told.ok(), access, answer.is_ok()),
        }
        answer
    }

    fn length(&mut self, role: Role) -> Result<u64, Failed>
        ensures size { IfOk result (λ n. n ≡ (file_of role (files_in self.old)).size) }
        ensures files { files_in self.new ≡ files_in self.old }
        ensures held { held_in self.new ≡ held_in self.old }
        ensures cause { HasCause (script_in self.old).faults (script_in self.new).faults result }
        ensures calm { OnOk result ((script_in self.new).faults ≡ (script_in self.old).faults) }
        ensures script { Follows (script_in self.old) (after_call (script_in self.old)) (script_in self.new) result }
    {
        let turn = self.script.turn();
        let len = self.file(role).len();
        self.script.answer(turn, Ok(()))?;
        Ok(len)
    }

    fn read_at(&mut self, role: Role, at: u64, into: &mut [u8]) -> Result<(), Failed>
        requires within { at + length_of into.old ≤ (file_of role (files_in self.old)).size }
        ensures bytes { OnOk result (into.new ≡ slice_of (bytes_of role (held_in self.old)) at (length_of into.old)) }
        ensures files { files_in self.new ≡ files_in self.old }
        ensures held { held_in self.new ≡ held_in self.old }
        ensures cause { HasCause (script_in self.old).faults (script_in self.new).faults result }
        ensures calm { OnOk result ((script_in self.new).faults ≡ (script_in self.old).faults) }
        ensures script { Follows (script_in self.old) (after_call (script_in self.old)) (script_in self.new) result }
    {
        let turn = self.script.turn();
        self.script.answer(turn, Ok(()))?;
        self.file(role).read(at, into);
        Ok(())
    }

    fn write_at(&mut self, role: Role, at: u64, from: &[u8]) -> Result<(), Failed>
        requires within { at ≤ (file_of role (files_in self.old)).size }
        ensures files { Resizes role (at + length_of from.now) (files_in self.old) (files_in self.new) result }
        ensures held { Writes role at from.now (held_in self.old) (held_in self.new) result }
        ensures cause { HasCause (script_in self.old).faults (script_in self.new).faults result }
        ensures calm { OnOk result ((script_in self.new).faults ≡ (script_in self.old).faults) }
        ensures left { (turn : Turn) × Takes (script_in self.old) turn × CarriesOut turn role at from.now self.old self.new }
        ensures script { let counted = with_write role (after_call (script_in self.old)) in
            Follows (script_in self.old) (record counted { spared = (script_in self.new).spared }) (script_in self.new) result }
    {
        let turn = self.script.turn();
        self.script.count_write(role);
        let found = self.carry_out(turn, role, at, from);
        self.script.answer(turn, found)
    }

    fn sync(&mut self, role: Role) -> Result<(), Failed>
        ensures files { files_in self.new ≡ files_in self.old }
        ensures held { Syncs role (held_in self.old) (held_in self.new) result }
        ensures cause { HasCause (script_in self.old).faults (script_in self.new).faults result }
        ensures calm { OnOk result ((script_in self.new).faults ≡ (script_in self.old).faults) }
        ensures script { Follows (script_in self.old) (after_call (script_in self.old)) (script_in self.new) result }
    {
        let turn = self.script.turn();
        let found = if turn == Turn::Works {
            self.make_durable(role)
        } else {
            Ok(())
        };
        self.script.answer(turn, found)
    }
}
