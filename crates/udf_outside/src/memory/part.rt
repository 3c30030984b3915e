//! A part of a file that was copied out of it.
ghost use Rattle.std.specs.Prelude.{◌≡◌};
ghost use Rattle.udf_outside.specs.Undo.{part_bytes};

/// Some bytes. Zeros alone are held by their number.
#[derive(Drop)]
pub enum Part {
    Zeros(u64),
    Bytes(Vec<u8>),
}

impl Part {
    /// These bytes.
    pub fn of(bytes: Vec<u8>) -> Part
        ensures { part_bytes result ≡ bytes.items }
    {
        if bytes.iter().all(|byte| *byte == 0) {
            Part::Zeros(bytes.len() as u64)
        } else {
            Part::Bytes(bytes)
        }
    }
}
