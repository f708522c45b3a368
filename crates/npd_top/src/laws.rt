ghost use Rattle.npd_top.specs.Laws.{EndsWell};

use db_load::laws::each_text_has_one_answer;

/// Where words ask for a job that can be served, an accepted database and a capture that ends whole within the limit of
/// packets or an accepted database, and no count of faults rises, a run is done, or memory was refused.
pub fn a_run_ends_well()
    ensures { EndsWell }
{
    each_text_has_one_answer();
}
