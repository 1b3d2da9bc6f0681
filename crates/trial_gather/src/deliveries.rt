// What comes to which node.
use crate::node::{Manner, ask_at, keep, listen, serve, sum_behind};
use gather::TokioNodes;
use sat_base::{Fetched, Nodes, Stored};
use std::net::TcpListener;
use std::test::Fail;
use std::{io, iter, thread};

// The longest piece.
const LONGEST: usize = 4_194_304;

const FIRST: &[u8] = b"HTTP/1.1 200 OK\r\ncontent-length: 2\r\n\r\n\x01\x02";

const SECOND: &[u8] = b"HTTP/1.1 200 OK\r\ncontent-length: 2\r\n\r\n\x03\x04";

#[test]
fn the_longest_piece_comes_whole(rt: HostRuntime) -> Result<(), Fail> {
    let (listener, port) = listen(&rt)?;
    let alloc = rt.alloc();
    let mut piece = Vec::with_capacity(alloc, LONGEST)?;
    for place in 0..LONGEST {
        piece.push((place % 251) as u8)?;
    }
    let ask = ask_at(port, 3, LONGEST as u64);
    let mut nodes = TokioNodes::new(rt);
    let (host, at, asked, net, body) = (&rt, &listener, &ask, &mut nodes, &piece);
    let (came, stored) = thread::join(
        host,
        move || keep(at, LONGEST),
        move || net.put(alloc, asked, body),
    );
    assert_eq!(rt; came?, sum_behind(0, &piece));
    assert_eq!(rt; stored, Stored::Kept);
    assert_eq!(rt; nodes.faults(), 0);
    Ok(())
}

// Serves the first and then the second, each with its own share.
fn serve_both(first: &TcpListener, second: &TcpListener) -> io::Result<()> {
    serve(first, 0, Manner::Spells, FIRST)?;
    serve(second, 0, Manner::Spells, SECOND)
}

#[test]
fn each_node_is_asked_for_its_own(rt: HostRuntime) -> Result<(), Fail> {
    let (first, first_port) = listen(&rt)?;
    let (second, second_port) = listen(&rt)?;
    let alloc = rt.alloc();
    let asks = [ask_at(first_port, 0, 2), ask_at(second_port, 1, 2)];
    let mut nodes = TokioNodes::new(rt);
    let (host, a, b, asked, net) = (&rt, &first, &second, &asks, &mut nodes);
    let (served, answers) = thread::join(
        host,
        move || serve_both(a, b),
        move || net.fetch_all(alloc, asked),
    );
    served?;
    let answers = answers?;
    for (answer, want) in iter::zip(answers.as_slice(), [[1u8, 2], [3, 4]]) {
        assert!(rt; matches!(answer, Fetched::Share(bytes) if bytes.as_slice() == want.as_slice()));
    }
    assert_eq!(rt; answers.len(), 2);
    Ok(())
}
