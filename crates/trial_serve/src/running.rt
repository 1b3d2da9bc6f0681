// A command over any world.
ghost use Rattle.std.specs.Prelude.{◌≤◌, length};

use sat_base::{Clock, Gate, Keeper, Lane, Line, Link, NoMemory, Nodes, Point, Ticks, Words};
use satellite_cli::{Ended, World, satellite};
use std::alloc::Global;
use std::sync::Wait;
use std::thread::Threads;
use trial_lines::LineErr;

/// A point of the gate.
pub fn point(word: &str) -> Result<Point, LineErr> {
    match word {
        "audit" => return Ok(Point::AuditFetch),
        "repair" => return Ok(Point::RepairFetch),
        _ => {}
    }
    let Some((name, lane)) = word.split_once(':') else {
        return Err(LineErr::Bad);
    };
    let Ok(lane) = lane.parse::<u16>() else {
        return Err(LineErr::Bad);
    };
    match name {
        "read" => Ok(Point::SessionRead { lane }),
        "sent" => Ok(Point::SessionSent { lane }),
        _ => Err(LineErr::Bad),
    }
}

/// The words of a command.
pub fn line_of(alloc: Global, words: &str) -> Result<Line, NoMemory> {
    let mut line = Line::new(alloc);
    for word in words.split_ascii_whitespace() {
        line.push(word)?;
    }
    Ok(line)
}

/// Runs the command over any world.
pub fn run_over<
    C: Link,
    K: Keeper + Send,
    L: Lane,
    N: Nodes + Send,
    T: Clock + Send,
    W: Words + Send,
    I: Ticks + Send,
    G: Gate,
    R: Threads + Wait + Sync,
>(
    rt: &R,
    alloc: Global,
    line: &Line,
    world: World<C, K, L, N, T, W, I, G>,
) -> Ended<C, K, L, N, T, W, I, G>
    requires { length world.posts.items ≤ 16 }
{
    satellite(rt, alloc, line, world)
}
