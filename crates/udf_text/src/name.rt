// A name: a list of characters.
ghost use Rattle.std.specs.Prelude.{◌≡◌, IfOk, Some, nat_eq, refl};
ghost use Rattle.std.specs.Str.{chars, encode_utf8_all};
ghost use Rattle.std.specs.String.{string_bytes};
ghost use Rattle.std.specs.Ordering.{nat_cmp};
ghost use Rattle.std.specs.Cmp.Lexicographic.{pointwise, slice_cmp, nat_list_eq_equiv, nat_list_cmp_total, texts_po, texts_ties};
ghost use Rattle.std.specs.Cmp.{partial_equiv_from_equiv};
ghost use Rattle.udf_text.specs.Front.{IsLongestFront};

use crate::size::Size;
pub use std::alloc::AllocError as NoMemory;
use std::alloc::Global;
use std::cmp::Ordering;
use std::marker::Model;

/// The characters of a label, an identifier or a file name. A contract sees the list of their codes.
#[derive(Debug, Drop)]
pub struct Name {
    pub(crate) text: String,
}

impl Model for Name {
    ghost use Rattle.std.specs.Prelude.{List, ℕ};
    ghost use Rattle.std.specs.Str.{chars};
    ghost use Rattle.std.specs.String.{string_bytes};

    ghost Value = { List ℕ };

    ghost view = { λ a. chars (string_bytes a.text) };
}

impl PartialEq for Name {
    ghost eq = { pointwise nat_eq };

    ghost laws = { partial_equiv_from_equiv nat_list_eq_equiv };

    fn eq(&self, other: &Name) -> bool {
        self.text == other.text
    }
}

impl Eq for Name {
    ghost laws = { nat_list_eq_equiv };
}

impl PartialOrd for Name {
    ghost partial_cmp = { λ a b. Some (slice_cmp nat_cmp a b) };

    ghost laws = { texts_po };

    fn partial_cmp(&self, other: &Name) -> Option<Ordering> {
        Some(self.cmp(other))
    }
}

// By the characters, the first that differ first.
impl Ord for Name {
    ghost cmp = { slice_cmp nat_cmp };

    ghost total = { nat_list_cmp_total };

    ghost matches_partial_cmp = { λ a b. refl };

    ghost matches_eq = { texts_ties };

    fn cmp(&self, other: &Name) -> Ordering {
        self.text.chars().cmp(other.text.chars())
    }
}

impl Name {
    /// The name with the characters of a text.
    pub fn from_text(alloc: Global, text: &str) -> Result<Name, NoMemory>
        ensures characters { IfOk result (λ name. name ≡ chars text.now) }
    {
        let text = String::from_str(alloc, text)?;
        Ok(Name { text })
    }

    /// The text with the characters of the name.
    pub fn put_text(&self, alloc: Global) -> Result<String, NoMemory>
        ensures text { IfOk result (λ text. string_bytes text ≡ encode_utf8_all self.now) }
    {
        String::from_str(alloc, self.text.as_str())
    }

    /// The longest beginning of the name whose encoding has at most `bytes` bytes.
    pub fn front(&self, alloc: Global, bytes: usize) -> Result<Name, NoMemory>
        ensures longest { IfOk result (λ front. IsLongestFront self.now bytes front) }
    {
        let text = front_of(alloc, self.text.as_str(), bytes)?;
        Ok(Name { text })
    }
}

fn front_of(alloc: Global, text: &str, bytes: usize) -> Result<String, NoMemory>
    ensures { IfOk result (λ front. IsLongestFront (chars text.now) bytes (chars (string_bytes front))) }
{
    let mut front = String::new(alloc);
    let mut size = Size::empty();
    for c in text.chars() {
        size = size.with(c);
        if size.bytes() > bytes {
            return Ok(front);
        }
        front.push(c)?;
    }
    Ok(front)
}
