// A server over one keeper in three terms.
use super::asking::{APRIL, NOW, close, leave, node, rates, settle, statement, stop};
use super::served::{Command, make, serve, sheet};
use anyhow::Result;
use sat_base::Keeper;
use std::alloc::Global;
use std::sync::Wait;
use std::thread::Threads;

const FIRST: Command<'static> = Command {
    words: "serve --store s --port 1 --term 3",
    now: NOW,
};

const SECOND: Command<'static> = Command {
    words: "serve --store s --port 1",
    now: NOW,
};

const THIRD: Command<'static> = Command {
    words: "serve --store s --port 1",
    now: APRIL,
};

fn first_asks(alloc: Global) -> Result<[Vec<u8>; 4]> {
    let (node, first) = (node(alloc)?, settle(alloc, 1, 10)?);
    let (second, third) = (settle(alloc, 2, 20)?, settle(alloc, 3, 30)?);
    Ok([node, first, second, third])
}

fn second_asks(alloc: Global) -> Result<[Vec<u8>; 6]> {
    let (second, third, close) = (settle(alloc, 2, 20)?, settle(alloc, 3, 30)?, close(alloc)?);
    let (march, april) = (rates(alloc, "2026-03")?, rates(alloc, "2026-04")?);
    Ok([second, third, close, march, april, stop(alloc)?])
}

fn third_asks(alloc: Global) -> Result<[Vec<u8>; 6]> {
    let (early, first, again) = (statement(alloc)?, close(alloc)?, close(alloc)?);
    let (late, leave) = (statement(alloc)?, leave(alloc)?);
    Ok([early, first, again, late, leave, stop(alloc)?])
}

/// Makes a store in a keeper, and serves it in three terms.
pub fn months<K: Keeper + Send, R: Threads + Wait + Sync>(
    rt: &HostRuntime,
    handles: &R,
    keeper: K,
) -> Result<()> {
    let alloc = rt.alloc();
    let (first, second, third) = (first_asks(alloc)?, second_asks(alloc)?, third_asks(alloc)?);
    let keeper = make(rt, handles, keeper)?;
    let keeper = serve(rt, handles, FIRST, keeper, &first)?;
    let keeper = serve(rt, handles, SECOND, keeper, &second)?;
    let keeper = sheet(rt, handles, keeper)?;
    let keeper = serve(rt, handles, THIRD, keeper, &third)?;
    let _keeper = sheet(rt, handles, keeper)?;
    Ok(())
}
