ghost use Rattle.std.specs.Prelude.{◌≡◌};

use db_model::Bytes64;
use tap_bus::Told;

/// What is handed out of a packet: what taps are told of it, and its texts, empty where they aren't wanted.
#[derive(Drop)]
pub struct Texts {
    pub told: Told,
    pub pdml: Bytes64,
    pub psml: Bytes64,
}

impl Texts {
    /// Those of these buffers, which it takes as they are.
    pub fn of(told: Told, buffers: engine::Texts) -> Texts
        ensures told { result.told ≡ told }
        ensures pdml { result.pdml ≡ buffers.pdml.items }
        ensures psml { result.psml ≡ buffers.psml.items }
    {
        let engine::Texts { pdml, psml } = buffers;
        Texts {
            told,
            pdml: Bytes64::from_vec(pdml),
            psml: Bytes64::from_vec(psml),
        }
    }
}

/// What one thread may hand on to another.
trait HandedOn: Send {}

impl HandedOn for Texts {}
