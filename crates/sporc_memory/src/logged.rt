//! Logs of calls.

ghost use Rattle.sporc_memory.specs.CallsModel.{CountsCall};
ghost use Rattle.sporc_memory.specs.Logged.{LogsCall};
ghost use Rattle.sporc_outside.specs.Counts.{CountsFaults};

use crate::calls::Calls;
use sporc_outside::Failed;

/// A call of an object in memory, as its log has it: what it asked, and whether it succeeded.
#[derive(Drop)]
pub struct Call<R> {
    pub request: R,
    pub done: bool,
}

// Counts a call, and puts it at the end of the log.
pub(crate) fn log_call<R: Drop>(
    calls: &mut Calls,
    log: &mut Vec<Call<R>>,
    request: R,
) -> Result<(), Failed>
    ensures logged { LogsCall log.old.items log.new.items request result }
    ensures call { CountsCall calls.old calls.new result }
    ensures count { CountsFaults calls.old.faults calls.new.faults result }
{
    let answer = calls.begin();
    let done = answer.is_ok();
    let Ok(()) = log.push(Call { request, done }) else {
        return Err(calls.fail());
    };
    answer
}
