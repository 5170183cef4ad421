//! Fields: one tag byte, two length bytes (high byte first) and that many body bytes.
//! Everything that is read from bytes is made of them, and everything that is refused is named here.
#![tactic(auto)]

ghost use Rattle.std.specs.Prelude.{◌≡◌, ◌+◌, ◌≤◌, true, false, length, Ok, Err, MatchResult, slice_index};
ghost use Rattle.field.specs.Faults.{fault};
ghost use Rattle.field.specs.Fields.{whole, body_of, expected};

mod fault;
mod refusal;
mod words;

pub use fault::{Fault, Layer, within};
pub use refusal::Refusal;

/// A field that is all there.
#[derive(Debug, Clone, Copy, PartialEq, Eq)]
pub struct Field<'a> {
    pub tag: u8,
    pub body: &'a [u8],
}

/// The field at the front of `bytes`.
pub fn read_field(bytes: &[u8]) -> Result<Field<'_>, Fault>
    ensures { MatchResult result (λ f. (whole bytes.now ≡ true) × (f.tag ≡ slice_index bytes.now 0) × (f.body.now ≡ body_of bytes.now)) (λ e. (whole bytes.now ≡ false) × (e ≡ fault Refusal.CutShort Layer.Field)) }
{
    let [tag, high, low, rest @ ..] = bytes else {
        return Err(Fault::here(Refusal::CutShort, Layer::Field));
    };
    let length = usize::from(u16::from_be_bytes([*high, *low]));
    if rest.len() < length {
        return Err(Fault::here(Refusal::CutShort, Layer::Field));
    }
    Ok(Field {
        tag: *tag,
        body: &rest[..length],
    })
}

/// The body of the field at the front of `bytes`, where one with this tag and this length is due.
// The length is a plain number: a const parameter would ask a constant of callers, who may pass any.
pub fn expect_field(bytes: &[u8], tag: u8, size: usize, layer: Layer) -> Result<&[u8], Fault>
    ensures told { MatchResult result (λ b. expected bytes.now tag size layer ≡ Ok b.now) (λ e. expected bytes.now tag size layer ≡ Err e) }
    ensures fits { MatchResult result (λ b. (length b.now ≡ size) × (3 + size ≤ length bytes.now)) (λ e. e.byte ≡ 0) }
{
    let field = read_field(bytes)?;
    if field.tag != tag {
        return Err(Fault::here(Refusal::TagNotDue, layer));
    }
    if field.body.len() != size {
        return Err(Fault::here(Refusal::WrongLength, layer));
    }
    Ok(field.body)
}
