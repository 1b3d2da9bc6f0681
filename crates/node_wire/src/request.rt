// The requests that nodes are sent.
ghost use Rattle.std.specs.Prelude.{◌≡◌, ◌++◌, IfOk, OnOk, string_bytes};
ghost use Rattle.std.specs.Int.{w32, to_be_bytes};
ghost use Rattle.std.specs.Net.Addr.{ipv4_octets};
ghost use Rattle.std.specs.Net.Socket.{v4_ip, v4_port};
ghost use Rattle.node_wire.specs.Asking.{IsAddressOf, fetch_text, front_text, header_text, host_text, line_text, put_text};

use itoa::Buffer;
use sat_base::{Ask, NoMemory};
use std::alloc::{AllocError, Global};
use std::net::{Ipv4Addr, SocketAddr, SocketAddrV4};

/// Where the node of an ask listens.
pub fn address(ask: &Ask) -> SocketAddr
    ensures { IsAddressOf ask.now result }
{
    SocketAddr::V4(host(ask))
}

/// The bytes that ask a node for the range of a piece.
pub fn fetch_request(alloc: Global, ask: &Ask) -> Result<Vec<u8>, NoMemory>
    ensures { IfOk result (λ bytes. bytes.items ≡ fetch_text ask.now) }
{
    let mut text = front(alloc, "GET", ask)?;
    let mut offset = Buffer::new();
    push_header(&mut text, "x-offset", offset.format(ask.offset))?;
    let mut len = Buffer::new();
    push_header(&mut text, "x-length", len.format(ask.len))?;
    push_header(&mut text, "connection", "close")?;
    text.extend_from_slice(b"\r\n")?;
    Ok(text)
}

/// The bytes that ask a node to keep a piece, which end with the piece.
pub fn put_request(alloc: Global, ask: &Ask, piece: &[u8]) -> Result<Vec<u8>, NoMemory>
    ensures { IfOk result (λ bytes. bytes.items ≡ put_text ask.now piece.now) }
{
    let mut text = front(alloc, "PUT", ask)?;
    let mut len = Buffer::new();
    push_header(&mut text, "content-length", len.format(piece.len()))?;
    push_header(&mut text, "connection", "close")?;
    text.extend_from_slice(b"\r\n")?;
    text.extend_from_slice(piece)?;
    Ok(text)
}

// The request line and the headers that both requests have: whom it is for (RFC 9112, 3.2), and the order.
fn front(alloc: Global, method: &str, ask: &Ask) -> Result<Vec<u8>, AllocError>
    ensures { IfOk result (λ text. text.items ≡ front_text method.now ask.now) }
{
    let mut text = request_line(alloc, method, ask)?;
    let host = host_of(alloc, ask)?;
    push_header(&mut text, "host", host.as_str())?;
    let order = hex::encode(alloc, ask.order.as_slice())?;
    push_header(&mut text, "x-order", order.as_str())?;
    Ok(text)
}

fn request_line(alloc: Global, method: &str, ask: &Ask) -> Result<Vec<u8>, AllocError>
    ensures { IfOk result (λ text. text.items ≡ line_text method.now ask.now) }
{
    let mut text = Vec::from_slice(alloc, method.as_bytes())?;
    text.extend_from_slice(b" /piece/")?;
    let mut segment = Buffer::new();
    text.extend_from_slice(segment.format(ask.segment.0).as_bytes())?;
    text.extend_from_slice(b"/")?;
    let mut index = Buffer::new();
    text.extend_from_slice(index.format(ask.index).as_bytes())?;
    text.extend_from_slice(b" HTTP/1.1\r\n")?;
    Ok(text)
}

fn push_header(text: &mut Vec<u8>, name: &str, value: &str) -> Result<(), AllocError>
    ensures { OnOk result (text.new.items ≡ text.old.items ++ header_text name.now value.now) }
{
    text.extend_from_slice(name.as_bytes())?;
    text.extend_from_slice(b": ")?;
    text.extend_from_slice(value.as_bytes())?;
    text.extend_from_slice(b"\r\n")?;
    Ok(())
}

fn host(ask: &Ask) -> SocketAddrV4
    ensures ip { ipv4_octets (v4_ip result) ≡ to_be_bytes w32 ask.now.addr }
    ensures port { v4_port result ≡ ask.now.port }
{
    SocketAddrV4::new(Ipv4Addr::from_bits(ask.addr), ask.port)
}

// The address and the port in text.
fn host_of(alloc: Global, ask: &Ask) -> Result<String, AllocError>
    ensures { IfOk result (λ text. string_bytes text ≡ host_text ask.now.addr ask.now.port) }
{
    let host = host(ask);
    format!(in alloc; "{host}")
}
