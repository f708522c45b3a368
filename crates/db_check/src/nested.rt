//! Included blocks: those that include themselves, and those that stand too deep in one another.

ghost use Rattle.std.specs.Prelude.{◌≡◌, IfOk};
ghost use Rattle.db_cause.specs.declared.cause.Cause.TheVariants as cause;
ghost use Rattle.db_model.specs.BlockFaults.{protocol_45, protocol_46, fault_45, fault_46};
ghost use Rattle.db_model.specs.Lines.{over};
ghost use Rattle.db_check.specs.First.{first};
ghost use Rattle.db_check.specs.Home.{IsHome};
ghost use Rattle.db_check.specs.Known.{IsKnown};

use crate::cycles::cycles;
use crate::first::at_line;
use crate::heights::{heights_of, is_within};
use crate::home::Home;
use crate::known::Known;
use db_cause::Cause;
use db_laws::cycles_found;
use db_model::{Fault, NoMemory, Protocol};
use std::alloc::Global;

/// The least faults of both kinds.
#[derive(Clone, Copy)]
pub struct Nested {
    /// Of blocks that include themselves.
    pub cycles: Option<Fault>,
    /// Of protocols in which blocks and loops stand too deep.
    pub depths: Option<Fault>,
}

/// No block of a protocol whose heights are low includes itself, so only others are searched.
#[tactic(auto, using(crate::proofs::Acyclic::deep_here))]
fn of_protocol(alloc: Global, home: &Home) -> Result<Nested, NoMemory>
    requires { IsHome home.now }
    ensures { IfOk result (λ n. (n.cycles ≡ first cause.IncludesItself (protocol_45 home.now.protocol.now))
        × (n.depths ≡ first cause.NestedTooDeep (protocol_46 home.now.protocol.now))) }
{
    cycles_found();
    let heights = heights_of(alloc, home)?;
    if is_within(heights.as_slice(), home) {
        return Ok(Nested {
            cycles: None,
            depths: None,
        });
    }
    let cycles = cycles(alloc, home)?;
    let depths = at_line(home.protocol.line, Cause::NestedTooDeep, cycles.is_none());
    Ok(Nested { cycles, depths })
}

/// The least faults of both kinds in all protocols.
#[tactic(auto, unfolding(db_model::specs::BlockFaults::fault_45, db_model::specs::BlockFaults::fault_46))]
pub fn of_protocols(alloc: Global, known: &Known) -> Result<Nested, NoMemory>
    requires { IsKnown known.now }
    ensures { IfOk result (λ n. (n.cycles ≡ first cause.IncludesItself (fault_45 known.now.database.now))
        × (n.depths ≡ first cause.NestedTooDeep (fault_46 known.now.database.now))) }
{
    of_each(alloc, known.database.protocols.as_slice(), known)
}

fn of_each<'a>(
    alloc: Global,
    protocols: &'a [Protocol],
    known: &Known<'a>,
) -> Result<Nested, NoMemory>
    requires known { IsKnown known.now }
    requires all { protocols.now ≡ known.now.database.now.protocols }
    ensures { IfOk result (λ n. (n.cycles ≡ first cause.IncludesItself (over protocol_45 protocols.now))
        × (n.depths ≡ first cause.NestedTooDeep (over protocol_46 protocols.now))) }
{
    let mut cycles = None;
    let mut depths = None;
    for (number, protocol) in protocols.iter().enumerate() {
        let home = Home {
            database: known.database,
            names: known.names,
            number,
            protocol,
        };
        let found = of_protocol(alloc, &home)?;
        cycles = Fault::earlier(cycles, found.cycles);
        depths = Fault::earlier(depths, found.depths);
    }
    Ok(Nested { cycles, depths })
}
