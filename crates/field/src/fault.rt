//! A refusal of bytes: what is wrong, where, and who found it.

ghost use Rattle.std.specs.Prelude.{◌≡◌, ◌+◌, ◌^◌, ◌<◌, IfErr};
ghost use Rattle.field.specs.Numbers.{layer_number};
ghost use Rattle.field.specs.Faults.{fault, moved};

use super::refusal::Refusal;

/// Who found a fault: each layer reads what the one below it hands up.
#[derive(Debug, Clone, Copy, PartialEq, Eq)]
pub enum Layer {
    /// The field, which may be cut short.
    Field = 1,
    /// The record or the table that the fields make up.
    Record = 2,
    /// The docket and the whole input.
    Docket = 3,
}

impl Layer {
    /// The number by which makers know it.
    pub fn number(self) -> u8
        ensures { result ≡ layer_number self }
    {
        self as u8
    }
}

/// What is wrong with some bytes: the refusal, the byte where the field with the fault begins, and the layer that found it.
#[derive(Debug, Clone, Copy, PartialEq, Eq)]
pub struct Fault {
    pub refusal: Refusal,
    pub byte: usize,
    pub layer: Layer,
}

impl Fault {
    /// A fault of the field that begins where reading began.
    pub fn here(refusal: Refusal, layer: Layer) -> Fault
        ensures { result ≡ fault refusal layer }
    {
        Fault {
            refusal,
            byte: 0,
            layer,
        }
    }
}

/// What was read `start` bytes further in: its fault is passed on whole, with `start` added to the byte.
pub fn within<T>(read: Result<T, Fault>, start: usize) -> Result<T, Fault>
    requires { IfErr read (λ e. e.byte + start < 2 ^ 64) }
    ensures { result ≡ moved start read }
{
    read.map_err(|fault| Fault {
        byte: fault.byte + start,
        ..fault
    })
}
