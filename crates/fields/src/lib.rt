// Fields of bytes: where one stands, and its bytes.
// Assumes nothing; no function has a `requires`.
#![tactic(auto)]

ghost use Rattle.std.specs.Prelude.{◌≡◌};
ghost use Rattle.fields.specs.Bytes.{field_part};

// Where a field stands in its bytes.
#[derive(Clone, Copy)]
pub struct Field {
    pub offset: usize,
    pub size: usize,
}

// The bytes of a field, cut where bytes end.
pub fn field_bytes(bytes: &[u8], place: Field) -> &[u8]
    ensures { result.now ≡ field_part place bytes.now }
{
    let start = place.offset.min(bytes.len());
    let size = place.size.min(bytes.len() - start);
    &bytes[start..start + size]
}
