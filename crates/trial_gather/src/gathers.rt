// Futures that count their polls, and are ready at one of them.
ghost use Rattle.std.specs.Prelude.{All};

use futures::Future;
use futures::executor::block_on;
use futures::task::{Context, Poll};
use gather::Gather;
use std::alloc::AllocGlobal;
use std::cell::Cell;
use std::io;
use std::io::ErrorKind;
use std::random::RandomSource;
use std::sync::Wait;
use std::test::Fail;

#[derive(Drop)]
struct Nth<'a> {
    left: u32,
    polls: &'a Cell<u32>,
    output: char,
}

impl Future for Nth<'_> {
    type Output = char;

    fn poll(&mut self, cx: &mut Context<'_>) -> Poll<char> {
        self.polls.set(self.polls.get().saturating_add(1));
        if self.left <= 1 {
            return Poll::Ready(self.output);
        }
        self.left -= 1;
        cx.yield_now()
    }
}

// The outputs of futures that are polled together on this thread.
fn all_ready<R, F>(rt: &R, parts: Vec<F>) -> io::Result<Vec<F::Output>>
where
    R: Wait + RandomSource + AllocGlobal,
    F: Future<Output: Drop>,
    requires { All F.can_poll parts.items }
{
    match Gather::new(rt.alloc(), parts) {
        Ok(whole) => block_on(rt, whole),
        Err(_) => Err(io::Error::from(ErrorKind::OutOfMemory)),
    }
}

#[test]
fn each_part_is_polled_until_it_is_ready(rt: HostRuntime) -> Result<(), Fail> {
    let counts = [Cell::new(0), Cell::new(0), Cell::new(0)];
    let parts = vec![in rt.alloc();
        Nth {
            left: 3,
            polls: &counts[0],
            output: 'A'
        },
        Nth {
            left: 1,
            polls: &counts[1],
            output: 'B'
        },
        Nth {
            left: 2,
            polls: &counts[2],
            output: 'C'
        },
    ]?;
    let outs = all_ready(&rt, parts)?;
    assert_eq!(rt; outs.as_slice(), ['A', 'B', 'C'].as_slice());
    assert_eq!(rt; counts[0].get(), 3);
    assert_eq!(rt; counts[1].get(), 1);
    assert_eq!(rt; counts[2].get(), 2);
    Ok(())
}

#[test]
fn no_parts_give_no_outputs(rt: HostRuntime) -> Result<(), Fail> {
    let parts: Vec<Nth<'_>> = Vec::new(rt.alloc());
    assert!(rt; all_ready(&rt, parts)?.is_empty());
    Ok(())
}

#[test]
fn outputs_stand_in_asking_order(rt: HostRuntime) -> Result<(), Fail> {
    for (first, second, third) in [(1, 2, 3), (3, 2, 1), (2, 3, 1), (3, 1, 2), (2, 2, 2)] {
        let count = Cell::new(0);
        let parts = vec![in rt.alloc();
            Nth {
                left: first,
                polls: &count,
                output: 'A'
            },
            Nth {
                left: second,
                polls: &count,
                output: 'B'
            },
            Nth {
                left: third,
                polls: &count,
                output: 'C'
            },
        ]?;
        let outs = all_ready(&rt, parts)?;
        assert_eq!(rt; outs.as_slice(), ['A', 'B', 'C'].as_slice());
        assert_eq!(rt; count.get(), 6);
    }
    Ok(())
}
