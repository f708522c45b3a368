ghost use Rattle.std.specs.Prelude.{◌≡◌, ◌+◌, ◌<◌, ◌≤◌, true, length, IfOk};
ghost use Rattle.db_model.specs.Fitting.{log_fits};
ghost use Rattle.op_log.specs.Recorded.{IsRecord};
ghost use Rattle.pdl_code.specs.Does.{IsCodeOf};

use crate::overlay::Overlay;
use crate::transcript::Record;
use db_laws::decoding_fits;
use db_model::{CheckedDb, MOST_QUESTIONS, NoMemory, Packet, STAMP_END};
use decode_vm::{Steps, decode};
use pdl_code::Code;
use session::SessionView;
use std::alloc::Global;
use std::sync::ledger::Ledger;

/// Decodes a packet over what a view holds, and keeps what was asked. Counts a step, also where memory was refused.
pub fn record<L: Ledger>(
    alloc: Global,
    db: &CheckedDb,
    code: &Code,
    packet: &Packet,
    view: &SessionView,
    steps: &mut Steps<L>,
) -> Result<Record, NoMemory>
    requires database { view.now.database ≡ db.now }
    requires time { packet.now.stamp < STAMP_END }
    requires code { IsCodeOf db.now code.now }
    ensures decoding { IfOk result (IsRecord db.now packet.now view.now.content) }
    ensures fits { IfOk result (λ r. log_fits db.now r.log ≡ true) }
    ensures most { IfOk result (λ r. length r.log ≤ MOST_QUESTIONS) }
    ensures steps { steps.new ≡ steps.old + 1 }
{
    decoding_fits();
    let _checked = db.database();
    match Overlay::on(alloc, view) {
        Ok(mut overlay) => {
            let tree = decode(alloc, db, code, packet, &mut overlay, steps)?;
            let log = overlay.into_transcript();
            Ok(Record { tree, log })
        }
        Err(refused) => {
            steps.count();
            Err(refused)
        }
    }
}
