//! Room for operations that can be written only once what stands behind them is known.

ghost use Rattle.std.specs.Prelude.{◌≡◌, ◌<◌, ◌≤◌, map, length, IfOk};
ghost use Rattle.pdl_code.specs.Parts.{case_range, jumps_to, test_at, switch_at, AllBelow};

use crate::place::Place;
use crate::{Choice, Op, Ranges};
use db_model::{Case, CaseRange, NoMemory};
use expr_code::ExprCode;
use sqlite_items::Items;
use std::alloc::Global;

/// The bodies of the cases that were written: where each begins, counted from the first, the place behind each,
/// and what stands behind all.
#[derive(Drop)]
pub struct Bodies {
    pub begins: Items<usize>,
    pub ends: Items<usize>,
    pub to: Place,
}

/// Writes a test and the jump behind what it does where its value isn't 0.
pub fn write_test(value: ExprCode, start: usize, middle: usize, ops: &mut Items<Op>)
    requires order { start ≤ middle }
    requires within { middle < length ops.old }
    ensures { ops.new ≡ test_at start middle value ops.old }
{
    let end = ops.len();
    ops.set(
        start,
        Op::Test {
            value,
            to: middle - start,
        },
    );
    ops.set(
        middle,
        Op::Jump {
            to: end - middle - 1,
        },
    );
}

/// Writes a switch, and the jumps behind the bodies of its cases. `middle` is where the default begins.
pub fn write_switch(
    value: ExprCode,
    ranges: Ranges,
    bodies: Bodies,
    start: usize,
    middle: usize,
    ops: &mut Items<Op>,
)
    requires order { start < middle }
    requires within { start < length ops.old }
    requires ends { AllBelow (length ops.old) bodies.ends }
    ensures { ops.new ≡ switch_at start middle value ranges bodies ops.old }
{
    write_jumps(ops, bodies.ends.as_slice());
    let choice = Choice {
        ranges,
        targets: bodies.begins,
        otherwise: middle - start - 1,
    };
    ops.set(start, Op::Switch { value, choice });
}

/// The ranges of the cases. NoMemory may come only for 2^32 cases and more, which no memory holds.
pub fn ranges_of(alloc: Global, cases: &[Case]) -> Result<Ranges, NoMemory>
    ensures { IfOk result (λ r. r ≡ map case_range cases.now) }
{
    let mut ranges = Items::new(alloc);
    for case in cases {
        ranges.push(CaseRange {
            low: case.value,
            high: case.maxvalue,
        })?;
    }
    if ranges.len() > u32::MAX as usize {
        return Err(NoMemory);
    }
    Ok(Ranges::of(ranges))
}

/// Writes jumps to the end at these places.
fn write_jumps(ops: &mut Items<Op>, places: &[usize])
    requires { AllBelow (length ops.old) places.now }
    ensures written { ops.new ≡ jumps_to (length ops.old) places.now ops.old }
    ensures long { length ops.new ≡ length ops.old }
{
    let end = ops.len();
    for place in places {
        ops.set(
            *place,
            Op::Jump {
                to: end - *place - 1,
            },
        );
    }
}
