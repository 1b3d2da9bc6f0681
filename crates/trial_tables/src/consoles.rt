// A console in memory counts its calls that failed, and no other.
use sat_base::{Given, MemConsole, NoMemory, Sink, Source, Taken};
use std::alloc::Global;

// A console whose second and fifth call fail.
fn console(alloc: Global) -> Result<MemConsole, NoMemory> {
    let input = Vec::from_slice(alloc, &[1, 2, 3])?;
    let failing = Vec::from_slice(alloc, &[2, 5])?;
    Ok(MemConsole::of(alloc, input, failing))
}

// What a read answers, and the counts of reads and of puts that failed, behind it.
fn read(console: &mut MemConsole) -> (Taken, u64, u64) {
    let taken = console.read(&mut [0; 2]);
    (taken, console.read_faults(), console.write_faults())
}

// The same of a put.
fn put(console: &mut MemConsole) -> (Given, u64, u64) {
    let given = console.put(&[8, 9]);
    (given, console.read_faults(), console.write_faults())
}

fn counts_reads(console: &mut MemConsole) -> bool {
    let made = [read(console), read(console), read(console), read(console)];
    let want = [
        (Taken::Count(2), 0, 0),
        (Taken::Failed, 1, 0),
        (Taken::Count(1), 1, 0),
        (Taken::End, 1, 0),
    ];
    made == want
}

fn counts_puts(console: &mut MemConsole) -> bool {
    let made = [put(console), put(console)];
    let want = [(Given::Failed, 1, 1), (Given::Count(2), 1, 1)];
    made == want && console.written() == [8, 9].as_slice()
}

fn counts_calls(alloc: Global) -> Result<bool, NoMemory> {
    let mut console = console(alloc)?;
    Ok(counts_reads(&mut console) && counts_puts(&mut console))
}

#[test]
fn counts_the_calls_that_failed(rt: HostRuntime) {
    assert!(rt; counts_calls(rt.alloc()) == Ok(true));
}
