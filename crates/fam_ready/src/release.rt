//! Operations that a fence holds back no more.

ghost use Rattle.std.specs.Prelude.{◌≡◌, ◌<◌, ◌≤◌, length};
ghost use Rattle.fam_ready.specs.Telling.{Covers, EndsEpoch};

use fam_context::Context;
use fam_model::Operation;

/// The first place from this one on at which another epoch stands, and the number of operations where there is
/// none.
fn epoch_end(operations: &[Operation], from: usize) -> usize
    requires { from < length operations.now }
    ensures { EndsEpoch operations.now from result }
{
    let epoch = operations[from].epoch;
    for place in from..operations.len() {
        if operations[place].epoch != epoch {
            return place;
        }
    }
    operations.len()
}

/// From where to before where the operations lie that no fence holds back, where nothing of this epoch and
/// those before is left. Where something is left they are none.
pub(crate) fn freed(context: &Context, epoch: u64) -> (usize, usize)
    ensures order { result.0 ≤ result.1 }
    ensures within { result.1 ≤ length context.now.context.operations }
    ensures covers { Covers epoch context.now.context result.0 result.1 }
{
    let operations = context.operations();
    let front = context.front();
    if front < operations.len() && epoch < operations[front].epoch {
        (front, epoch_end(operations, front))
    } else {
        (0, 0)
    }
}
