//! The satellite's program: its words, its devices, and the top call over both.
//!
//! `main` hands the words and the real devices to `satellite_cli::satellite`, and its status to the system: the console
//! for each command, and for `init`, `serve` and `sheet` the store's file as well, for `serve` a port for each lane and the
//! storage nodes of the network. Words that are no text are read as none, which is no command either. What the commands do
//! is `satellite_cli`'s contract. Of `main` itself nothing is proved but that it is safe; the gate runs it on examples.
#![tactic(auto)]

ghost use Rattle.std.specs.Prelude.{◌≡◌, []};

mod devices;
mod store;
mod usage;

use devices::{Network, Serving, bound, devices};
use gather::TokioNodes;
use program_start::{StartErr, say_start, say_usage, words};
use sat_base::{KeeperMem, Line, NoMemory, Nodes, Service};
use sat_devices::Console;
use satellite_cli::{Command, LineErr, read_line};
use std::alloc::Global;
use std::io;
use std::process::ExitCode;
use std::sync::Wait;
use std::thread::Threads;
use store::{OpenStore, over_file};
use usage::PROGRAM;

// What serves where nothing is served.
fn idle<N>(alloc: Global, network: Network<N>, service: Service) -> Serving<N>
    ensures { result.posts.items ≡ [] }
{
    Serving {
        posts: Vec::new(alloc),
        tick: 0,
        network,
        service,
    }
}

// A run of a command without a store.
fn without_store<N: Nodes + Send, R: Threads + Wait + Sync>(
    rt: HostRuntime,
    handles: &R,
    alloc: Global,
    line: &Line,
    network: Network<N>,
    service: Service,
) -> Result<u8, StartErr> {
    let keeper = KeeperMem::of(Vec::new(alloc), Vec::new(alloc));
    let console = Console::new(rt.reader(), io::writer(&rt));
    let world = devices(rt, console, keeper, idle(alloc, network, service))?;
    let (status, _) = devices::run(handles, alloc, line, world);
    Ok(status)
}

fn run<N: Nodes + Send, R: Threads + Wait + Sync>(
    rt: HostRuntime,
    handles: &R,
    alloc: Global,
    network: Network<N>,
    service: Service,
) -> Result<u8, StartErr> {
    let line = words(&rt, alloc)?;
    match read_line(alloc, &line) {
        Ok(Command::Init { store, .. }) => {
            let open = OpenStore {
                name: store.as_slice(),
                may_make: true,
                serving: idle(alloc, network, service),
            };
            over_file(rt, handles, alloc, &line, open)
        }
        Ok(Command::Sheet { store, .. }) => {
            let open = OpenStore {
                name: store.as_slice(),
                may_make: false,
                serving: idle(alloc, network, service),
            };
            over_file(rt, handles, alloc, &line, open)
        }
        Ok(
            Command::Serve {
                store,
                port,
                lanes,
                tick,
                ..
            },
        ) => {
            let posts = bound(rt, alloc, &service, port, lanes)?;
            let open = OpenStore {
                name: store.as_slice(),
                may_make: false,
                serving: Serving {
                    posts,
                    tick,
                    network,
                    service,
                },
            };
            over_file(rt, handles, alloc, &line, open)
        }
        Ok(_) => without_store(rt, handles, alloc, &line, network, service),
        Err(LineErr::Usage) => {
            // The status and its line stand whether that can be told or not.
            let _ = say_usage(&rt, &PROGRAM, &line);
            without_store(rt, handles, alloc, &line, network, service)
        }
        Err(LineErr::NoMemory) => Err(StartErr::NoMemory),
    }
}

// The storage nodes, and the service that tells them when nobody is to be asked any more.
fn network(rt: HostRuntime) -> Result<(Network<TokioNodes<HostRuntime>>, Service), NoMemory> {
    let service = Service::new(rt.alloc())?;
    let network = Network {
        audit: TokioNodes::new(rt).served(service.share()?),
        repair: TokioNodes::new(rt).served(service.share()?),
        tally: TokioNodes::new(rt).served(service.share()?),
    };
    Ok((network, service))
}

fn main(rt: HostRuntime) -> ExitCode {
    let ran = match network(rt) {
        Ok((network, service)) => run(rt, &rt, rt.alloc(), network, service),
        Err(NoMemory) => Err(StartErr::NoMemory),
    };
    ExitCode::from(match ran {
        Ok(status) => status,
        Err(why) => say_start(&rt, why),
    })
}
