ghost use Rattle.std.specs.Prelude.{◌≡◌};
ghost use Rattle.engine.specs.Ready.{serial_receipt};

use crate::receipt::{Outcome, Receipt, Why};
use crate::texts::Texts;

/// A packet that was settled: the texts of the wanted outputs, and how it was decoded.
#[derive(Drop)]
pub struct Ready {
    pub texts: Texts,
    pub receipt: Receipt,
}

/// The receipt of a packet that was decoded without workers.
pub fn serial_receipt(number: u64) -> Receipt
    ensures { result ≡ serial_receipt number }
{
    Receipt {
        number,
        taken: None,
        outcome: Outcome::Direct(Why::Serial),
    }
}
