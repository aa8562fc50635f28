// One book to measure on, and the clocked questions.
use crate::grid::Kind;
use anyhow::anyhow;
use book::Refusal;
use std::time::Instant;

#[derive(Clone, Copy)]
pub(crate) struct Trial {
    pub(crate) kind: Kind,
    pub(crate) locks: usize,
    pub(crate) holders: usize,
}

// A refusal as an error of the program. Its cause is dropped, since the program prints only this sentence.
pub(crate) fn accepted<T: Drop>(answer: Result<T, Refusal>) -> anyhow::Result<T> {
    answer.map_err(|_| anyhow!("the engine refused a call"))
}

// How many nanoseconds a question takes, the mean of some rounds.
fn mean<F: FnMut() -> Result<(), Refusal>>(
    rt: &HostRuntime,
    ask: &mut F,
    rounds: u32,
) -> anyhow::Result<u64>
    requires { F.IsAlwaysCallable ask.old }
    ensures { F.IsAlwaysCallable ask.new }
{
    let start = Instant::now(rt)?;
    for _ in 0..rounds {
        accepted(ask())?;
    }
    let spent = start.elapsed(rt)?.as_nanos();
    let each = spent.checked_div(u128::from(rounds)).unwrap_or(0);
    Ok(u64::try_from(each).unwrap_or(u64::MAX))
}

// So many rounds that they take about a fifth of a second in all, where one takes so many nanoseconds.
fn rounds(once: u64) -> u32 {
    let wanted = 200_000_000u64.checked_div(once).unwrap_or(1);
    u32::try_from(wanted.clamp(1, 20_000)).unwrap_or(1)
}

// How many nanoseconds a question takes; one round before the others tells how many these are to be.
pub(crate) fn nanos<F: FnMut() -> Result<(), Refusal>>(
    rt: &HostRuntime,
    mut ask: F,
) -> anyhow::Result<u64>
    requires { F.IsAlwaysCallable ask }
{
    let once = mean(rt, &mut ask, 1)?;
    mean(rt, &mut ask, rounds(once))
}
