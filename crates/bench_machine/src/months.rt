// Months in which some hours are tallied, and which are closed then, each call timed by itself.
use crate::calls::{Answer, timed};
use crate::dropping::Asked;
use crate::made::{MONTH, NOW, Size, node_of};
use crate::runs::Outcome;
use anyhow::Result;
use machine_calls::{Call, Task, Wish};
use sat_base::{Moment, Month};
use std::alloc::Global;
use std::time::Clock;

// When the store's month is over, and each of the next ones.
const ENDS: [u64; 5] = [
    1_769_904_000,
    1_772_323_200,
    1_775_001_600,
    1_777_593_600,
    1_780_272_000,
];

// The hours of each month that are tallied.
const HOURS: u64 = 5;

/// What came of the calls on months.
#[derive(Drop)]
pub(crate) struct Months {
    pub tallies: Outcome,
    pub closes: Outcome,
    pub statements: Outcome,
}

fn tally_hour(clock: &impl Clock, book: &mut Asked, at: u64) -> Result<Answer> {
    let now = Moment::of(at);
    timed(
        clock,
        book,
        Call::Own {
            now,
            task: Task::TallyHour,
        },
    )
}

fn close_month(
    clock: &impl Clock,
    alloc: Global,
    book: &mut Asked,
    at: u64,
    month: Month,
) -> Result<Answer> {
    let wish = Wish::CloseMonth { month };
    timed(clock, book, Call::of_wish(alloc, Moment::of(at), wish))
}

// The statements of the first month, of one node for each call of a kind.
fn ask_statements(
    clock: &impl Clock,
    alloc: Global,
    book: &mut Asked,
    size: Size,
    outcome: &mut Outcome,
) -> Result<()> {
    for number in 0..size.calls {
        let wish = Wish::Statement {
            node: node_of(size, number),
            month: Month(MONTH),
        };
        let call = Call::of_wish(alloc, Moment::of(0), wish);
        outcome.add(timed(clock, book, call)?)?;
    }
    Ok(())
}

/// Tallies some hours of each month and closes it, and then asks for statements of the first.
pub(crate) fn pass(
    clock: &impl Clock,
    alloc: Global,
    book: &mut Asked,
    size: Size,
) -> Result<Months> {
    let mut months = Months {
        tallies: Outcome::new(alloc),
        closes: Outcome::new(alloc),
        statements: Outcome::new(alloc),
    };
    let mut month = MONTH;
    let mut from = NOW;
    for end in ENDS {
        for hour in 0..HOURS {
            let at = from.saturating_add(hour.saturating_mul(3600));
            months.tallies.add(tally_hour(clock, book, at)?)?;
        }
        months
            .closes
            .add(close_month(clock, alloc, book, end, Month(month))?)?;
        month = month.saturating_add(1);
        from = end;
    }
    ask_statements(clock, alloc, book, size, &mut months.statements)?;
    Ok(months)
}
