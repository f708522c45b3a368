ghost use Rattle.std.specs.Prelude.{◌≡◌, ◌<◌, ◌^◌, length};
ghost use Rattle.encap.specs.Choice.{first_holding};

use db_model::CaseRange;

/// The place of the first case that holds `v`, or none where no case does. Takes no memory.
pub fn choose(cases: &[CaseRange], v: u32) -> Option<u32>
    requires { length cases.now < 2 ^ 32 }
    ensures { result ≡ first_holding v cases.now }
{
    let at = cases
        .iter()
        .position(|case| case.low <= v && v <= case.high)?;
    Some(at as u32)
}
