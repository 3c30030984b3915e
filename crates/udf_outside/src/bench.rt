//! A bench: an image and a side file, by what was asked of them, what they hold, and what a stop may leave of them.
ghost use Rattle.std.specs.Prelude.{◌≡◌, ◌+◌, ◌*◌, ◌≤◌, ℕ, List, length as length_of, None, OnOk, is_ok, IfOk};
ghost use Rattle.udf_model.specs.Bytes.{IsBytes};
ghost use Rattle.udf_outside.specs.declared.bench.Role.{Role};
ghost use Rattle.udf_outside.specs.declared.bench.Role.TheVariants.{Image};
ghost use Rattle.udf_outside.specs.Files.{Files, file_of, IsAttached, IsWritable, Attaches, Resizes};
ghost use Rattle.udf_outside.specs.Stops.{Held, bytes_of, slice_of, Writes, Syncs};
ghost use Rattle.udf_outside.specs.Causes.{HasCause};
ghost use Rattle.udf_outside.specs.Reads.{OnlyReads, failed};
ghost use Rattle.udf_outside.specs.Sectors.{disk_of};

/// The two files of a bench: the image of a volume, and the side file that holds the log of a repair.
#[derive(Clone, Copy, Debug, PartialEq, Eq)]
pub enum Role {
    Image,
    Side,
}

/// How a file is asked for. `Create` makes a missing file empty; both `Write` and `Create` allow reading too.
#[derive(Clone, Copy, Debug, PartialEq, Eq)]
pub enum Access {
    Read,
    Write,
    Create,
}

/// A call on the outside failed. The count of faults of its object tells more.
#[derive(Clone, Copy, Debug, PartialEq, Eq)]
pub struct Failed;

/// An image and a side file. Offsets and sizes are in bytes.
pub trait Bench {
    /// Whether the bytes are told. A bench over real files tells none, and then only counts, names, accesses and sizes bind.
    ghost tells: { Type 0 };

    /// What was asked of each file, and its size.
    ghost files: { Self → Files };

    /// What the files hold and held, and what a stop might leave of them. It binds where the bytes are told.
    ghost held: { Self → Held };

    /// How often a call failed. It never falls, and rises in a call that failed alone.
    ghost faults: { Self → ℕ };

    /// Each file holds bytes.
    fn known(&self)
        ensures { tells → (role : Role) → IsBytes (bytes_of role (held self.now)) };

    /// Asks for a file by its name. A role is asked for once, even in vain.
    fn attach(&mut self, role: Role, name: &str, access: Access) -> Result<(), Failed>
        requires { (file_of role (files self.old)).asked ≡ None }
        ensures asked { Attaches role name.now access (is_ok result) (files self.old) (files self.new) }
        ensures held { held self.new ≡ held self.old }
        ensures cause { HasCause (faults self.old) (faults self.new) result }
        ensures calm { OnOk result (faults self.new ≡ faults self.old) };

    /// The size of an attached file.
    fn length(&mut self, role: Role) -> Result<u64, Failed>
        requires { IsAttached role (files self.old) }
        ensures size { IfOk result (λ n. n ≡ (file_of role (files self.old)).size) }
        ensures files { files self.new ≡ files self.old }
        ensures held { held self.new ≡ held self.old }
        ensures cause { HasCause (faults self.old) (faults self.new) result }
        ensures calm { OnOk result (faults self.new ≡ faults self.old) };

    /// Fills the whole slice with the bytes from an offset on.
    fn read_at(&mut self, role: Role, at: u64, into: &mut [u8]) -> Result<(), Failed>
        requires attached { IsAttached role (files self.old) }
        requires within { at + length_of into.old ≤ (file_of role (files self.old)).size }
        ensures bytes { tells → OnOk result (into.new ≡ slice_of (bytes_of role (held self.old)) at (length_of into.old)) }
        ensures files { files self.new ≡ files self.old }
        ensures held { held self.new ≡ held self.old }
        ensures cause { HasCause (faults self.old) (faults self.new) result }
        ensures calm { OnOk result (faults self.new ≡ faults self.old) };

    /// Writes the bytes from an offset on, which is at most the size. The file grows where they end past it.
    fn write_at(&mut self, role: Role, at: u64, from: &[u8]) -> Result<(), Failed>
        requires writable { IsWritable role (files self.old) }
        requires within { at ≤ (file_of role (files self.old)).size }
        ensures files { Resizes role (at + length_of from.now) (files self.old) (files self.new) result }
        ensures held { tells → Writes role at from.now (held self.old) (held self.new) result }
        ensures cause { HasCause (faults self.old) (faults self.new) result }
        ensures calm { OnOk result (faults self.new ≡ faults self.old) };

    /// Brings what was written to the medium, the length too.
    fn sync(&mut self, role: Role) -> Result<(), Failed>
        requires { IsWritable role (files self.old) }
        ensures files { files self.new ≡ files self.old }
        ensures held { tells → Syncs role (held self.old) (held self.new) result }
        ensures cause { HasCause (faults self.old) (faults self.new) result }
        ensures calm { OnOk result (faults self.new ≡ faults self.old) };

    /// Where the bytes of an attached file are told, its size is their number.
    ghost sizes: { (bench : Self) (role : Role) → tells → IsAttached role (files bench)
        → (file_of role (files bench)).size ≡ length_of (bytes_of role (held bench)) };
}

/// Reads one block of the image: `size` is the block size in bytes, `sector` the block's number.
#[tactic(auto, unfolding(udf_model::specs::Image::block_of))]
pub fn read_block<B: Bench>(
    bench: &mut B,
    size: u32,
    sector: u32,
    into: &mut [u8],
) -> Result<(), Failed>
    requires attached { IsAttached Image (B.files bench.old) }
    requires within { (sector + 1) * size ≤ (B.files bench.old).image.size }
    requires room { length_of into.old ≡ size }
    ensures block { B.tells → OnOk result (into.new ≡ disk_of size (B.held bench.old) sector) }
    ensures reads { OnlyReads B.files B.held B.faults bench.old bench.new failed result }
{
    bench.read_at(Role::Image, sector as u64 * size as u64, into)
}
