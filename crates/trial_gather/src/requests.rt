// The bytes that nodes are asked by.
use crate::node::ask_at;
use node_wire::{address, fetch_request, put_request};
use std::net::{Ipv4Addr, SocketAddr};
use std::test::Fail;

#[test]
fn a_request_has_the_order_and_the_range(rt: HostRuntime) -> Result<(), Fail> {
    let alloc = rt.alloc();
    let mut ask = ask_at(28967, 3, 1024);
    ask.addr = 0x0a00_0201;
    ask.offset = 2048;
    assert_eq!(rt;
        address(&ask),
        SocketAddr::from((Ipv4Addr::new(10, 0, 2, 1), 28967))
    );
    let mut text = Vec::from_slice(
        alloc,
        b"GET /piece/5/3 HTTP/1.1\r\nhost: 10.0.2.1:28967\r\nx-order: ",
    )?;
    for _ in 0..123 {
        text.extend_from_slice(b"07")?;
    }
    text.extend_from_slice(b"\r\nx-offset: 2048\r\nx-length: 1024\r\nconnection: close\r\n\r\n")?;
    assert_eq!(rt; fetch_request(alloc, &ask)?.as_slice(), text.as_slice());
    Ok(())
}

#[test]
fn a_put_ends_with_the_piece(rt: HostRuntime) -> Result<(), Fail> {
    let alloc = rt.alloc();
    let ask = ask_at(80, 127, 4);
    let mut text = Vec::from_slice(
        alloc,
        b"PUT /piece/5/127 HTTP/1.1\r\nhost: 127.0.0.1:80\r\nx-order: ",
    )?;
    for _ in 0..123 {
        text.extend_from_slice(b"07")?;
    }
    text.extend_from_slice(b"\r\ncontent-length: 4\r\nconnection: close\r\n\r\nwxyz")?;
    assert_eq!(rt;
        put_request(alloc, &ask, b"wxyz")?.as_slice(),
        text.as_slice()
    );
    Ok(())
}
