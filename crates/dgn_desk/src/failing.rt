ghost use Rattle.std.specs.Prelude.{◌≡◌, Err};
ghost use Rattle.dgn_desk.specs.Desk.{Counts, one_more};

use crate::stop::Stop;

/// Counts one more fault, up to the last value of the counter, and answers it: for those who write a desk.
pub fn failed<T>(count: &mut u64) -> Result<T, Stop>
    ensures counted { count.new ≡ one_more count.old }
    ensures cause { Counts count.old count.new result }
    ensures answer { result ≡ Err Stop.Failed }
{
    *count = count.saturating_add(1);
    Err(Stop::Failed)
}
