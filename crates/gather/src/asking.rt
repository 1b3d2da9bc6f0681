// One ask of a node, as a state machine.
ghost use Rattle.futures.specs.Task.{Keeps};
ghost use Rattle.gather.specs.Asks.{Asks, CanAsk, Leads, MayCome};
ghost use Rattle.node_wire.specs.Readings.{IsOpen, question_of};

use bytes::{Buf, BytesMut};
use futures::Future;
use futures::task::{Context, Poll};
use node_wire::{Fed, Outcome, Reading};
use tokio::io::{AsyncRead, poll_write_buf};
use tokio::net::{ConnectFuture, TcpStream};

// How many steps a poll takes at most, and how many bytes a read. So many reads are half of the longest piece.
const STEPS: u32 = 128;

const READ: usize = 16384;

/// Where an ask is.
#[derive(Drop)]
pub enum Step {
    // Nothing is sent.
    Unasked,
    Connecting(ConnectFuture, BytesMut),
    Sending(TcpStream, BytesMut),
    Hearing(TcpStream),
}

// Where a step leads.
#[derive(Drop)]
pub enum Turn {
    // There again, once the connection has something new.
    Wait(Step),
    // There, at once.
    On(Step),
    Over(Outcome),
}

/// Connects, sends a request and reads the answer until it is decided. It comes to what the node answered, with the
/// reading that it was read by. A connection that fails or ends is the end of the answer.
#[derive(Drop)]
pub struct Asking {
    // The step and what was read, until the ask is over.
    inner: Option<(Step, Reading)>,
}

impl Asking {
    /// An ask over a connection that is being made.
    pub(crate) fn new(connect: ConnectFuture, request: BytesMut, reading: Reading) -> Asking
        requires { IsOpen reading }
        ensures { Asks (question_of reading) result }
    {
        Asking {
            inner: Some((Step::Connecting(connect, request), reading)),
        }
    }

    /// An ask that no node hears of. It comes to no answer.
    pub(crate) fn unasked(reading: Reading) -> Asking
        requires { IsOpen reading }
        ensures { Asks (question_of reading) result }
    {
        Asking {
            inner: Some((Step::Unasked, reading)),
        }
    }
}

impl Step {
    fn take(self, reading: &mut Reading, cx: &mut Context<'_>, buf: &mut [u8]) -> Turn
        requires { IsOpen reading.old }
        ensures leads { Leads (question_of reading.old) cx.new reading.new result }
        ensures kept { Keeps cx.old cx.new }
    {
        match self {
            Step::Unasked => Turn::Over(reading.end()),
            Step::Connecting(connect, request) => connect_on(connect, request, reading, cx),
            Step::Sending(link, request) => send_on(link, request, reading, cx),
            Step::Hearing(link) => hear_on(link, reading, cx, buf),
        }
    }
}

fn connect_on(
    mut connect: ConnectFuture,
    request: BytesMut,
    reading: &mut Reading,
    cx: &mut Context<'_>,
) -> Turn
    requires { IsOpen reading.old }
    ensures leads { Leads (question_of reading.old) cx.new reading.new result }
    ensures kept { Keeps cx.old cx.new }
{
    match connect.poll(cx) {
        Poll::Pending => Turn::Wait(Step::Connecting(connect, request)),
        Poll::Ready(Ok(link)) => Turn::On(Step::Sending(link, request)),
        Poll::Ready(Err(_error)) => Turn::Over(reading.end()),
    }
}

fn send_on(
    mut link: TcpStream,
    mut request: BytesMut,
    reading: &mut Reading,
    cx: &mut Context<'_>,
) -> Turn
    requires { IsOpen reading.old }
    ensures leads { Leads (question_of reading.old) cx.new reading.new result }
    ensures kept { Keeps cx.old cx.new }
{
    if !request.has_remaining() {
        return Turn::On(Step::Hearing(link));
    }
    match poll_write_buf(&mut link, cx, &mut request) {
        Poll::Pending => Turn::Wait(Step::Sending(link, request)),
        Poll::Ready(Ok(0)) => Turn::Over(reading.end()),
        Poll::Ready(Ok(_)) => Turn::On(Step::Sending(link, request)),
        Poll::Ready(Err(_error)) => Turn::Over(reading.end()),
    }
}

fn hear_on(mut link: TcpStream, reading: &mut Reading, cx: &mut Context<'_>, buf: &mut [u8]) -> Turn
    requires { IsOpen reading.old }
    ensures leads { Leads (question_of reading.old) cx.new reading.new result }
    ensures kept { Keeps cx.old cx.new }
{
    match link.poll_read(cx, buf) {
        Poll::Pending => Turn::Wait(Step::Hearing(link)),
        Poll::Ready(Ok(0)) => Turn::Over(reading.end()),
        Poll::Ready(Ok(count)) => match reading.feed(&buf[..count]) {
            Fed::More => Turn::On(Step::Hearing(link)),
            Fed::Done(outcome) => Turn::Over(outcome),
        },
        Poll::Ready(Err(_error)) => Turn::Over(reading.end()),
    }
}

impl Future for Asking {
    type Output = (Outcome, Reading);

    ghost can_poll = { λ a. CanAsk a.inner };

    ghost gives = { λ a answer. MayCome a.inner answer };

    fn poll(&mut self, cx: &mut Context<'_>) -> Poll<(Outcome, Reading)> {
        let mut buf = [0u8; READ];
        for _ in 0..STEPS {
            let Some((step, mut reading)) = self.inner.take() else {
                unreachable!()
            };
            match step.take(&mut reading, cx, &mut buf) {
                Turn::Wait(step) => {
                    self.inner = Some((step, reading));
                    return Poll::Pending;
                }
                Turn::On(step) => self.inner = Some((step, reading)),
                Turn::Over(outcome) => return Poll::Ready((outcome, reading)),
            }
        }
        cx.yield_now()
    }
}
