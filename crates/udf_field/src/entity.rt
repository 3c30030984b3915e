// Names of entities (ECMA-167 1/7.4).
ghost use Rattle.std.specs.Prelude.{◌≡◌, length};
ghost use Rattle.std.specs.Str.{bytes_eq};
ghost use Rattle.udf_model.specs.Image.{is_zeros};
ghost use Rattle.udf_field.specs.FieldView.{padded};

// Whether each byte is 0.
#[tactic(auto, unfolding(udf_model::specs::Image::is_zeros))]
fn are_zeros(bytes: &[u8]) -> bool
    ensures { result ≡ is_zeros bytes.now }
{
    bytes.iter().all(|byte| *byte == 0)
}

// Whether the field is the name, padded with zeros.
#[tactic(auto, using(crate::proofs::Padded::too_long, crate::proofs::Padded::same_front, crate::proofs::Padded::other_front))]
pub fn is_padded(field: &[u8], name: &[u8]) -> bool
    ensures { result ≡ bytes_eq field.now (padded (length field.now) name.now) }
{
    if field.len() < name.len() {
        return false;
    }
    let (front, rest) = field.split_at(name.len());
    if front != name {
        return false;
    }
    are_zeros(rest)
}
