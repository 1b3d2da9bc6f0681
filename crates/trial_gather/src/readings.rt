// Answers, and what they are read as.
ghost use Rattle.node_wire.specs.Readings.{IsOpen};

use node_wire::{Fed, Outcome, Reading};
use std::alloc::Global;
use std::test::Fail;

// What all bytes say that come one by one: how many were taken, the outcome, and the share.
fn told(alloc: Global, mut reading: Reading, text: &[u8]) -> Result<(usize, Outcome, Vec<u8>), Fail>
    requires { IsOpen reading }
{
    for at in 0..text.len() {
        if let Fed::Done(outcome) = reading.feed(&text[at..at + 1]) {
            return Ok((at + 1, outcome, Vec::from_slice(alloc, reading.share())?));
        }
    }
    let outcome = reading.end();
    Ok((
        text.len(),
        outcome,
        Vec::from_slice(alloc, reading.share())?,
    ))
}

#[test]
fn fetches_are_read_byte_by_byte(rt: HostRuntime) -> Result<(), Fail> {
    let alloc = rt.alloc();
    for (text, taken, outcome, share) in [
        (
            b"HTTP/1.1 200 OK\r\ncontent-length: 2\r\n\r\n\x01\x02".as_slice(),
            40,
            Outcome::Share,
            b"\x01\x02".as_slice(),
        ),
        (
            b"HTTP/1.1 200 OK\r\ncontent-length: 2\r\n\r\n\x01\x02\x03".as_slice(),
            40,
            Outcome::Share,
            b"\x01\x02".as_slice(),
        ),
        (
            b"HTTP/1.1 200 OK\r\ncontent-length: 002\r\n\r\n\x01\x02".as_slice(),
            42,
            Outcome::Share,
            b"\x01\x02".as_slice(),
        ),
        (
            b"HTTP/1.1 200 OK\r\nContent-LENGTH: 1\r\n\r\n\x01".as_slice(),
            39,
            Outcome::Share,
            b"\x01".as_slice(),
        ),
        (
            b"HTTP/1.1 200 OK\r\ncontent-length: 0\r\n\r\n".as_slice(),
            38,
            Outcome::Share,
            b"".as_slice(),
        ),
        (
            b"HTTP/1.1 200 OK\r\ncontent-length: 3\r\n\r\n\x01\x02\x03".as_slice(),
            38,
            Outcome::Share,
            b"".as_slice(),
        ),
        (
            b"HTTP/1.1 404 Not Found\r\n\r\n".as_slice(),
            26,
            Outcome::Missing,
            b"".as_slice(),
        ),
        (
            b"HTTP/1.1 404 Not Found\r\n\r".as_slice(),
            25,
            Outcome::NoAnswer,
            b"".as_slice(),
        ),
        (
            b"HTTP/1.1 200 OK\r\ncontent-length: 2\r\n\r\n\x01".as_slice(),
            39,
            Outcome::NoAnswer,
            b"".as_slice(),
        ),
        (
            b"HTTP/1.1 200 OK\r\n\r\n\x01\x02".as_slice(),
            19,
            Outcome::NoAnswer,
            b"".as_slice(),
        ),
        (
            b"HTTP/1.1 200 OK\r\ncontent-length: -2\r\n\r\n\x01\x02".as_slice(),
            39,
            Outcome::NoAnswer,
            b"".as_slice(),
        ),
        (
            b"HTTP/1.1 200 OK\r\ncontent-length: 2\r\ncontent-length: 2\r\n\r\n".as_slice(),
            57,
            Outcome::NoAnswer,
            b"".as_slice(),
        ),
        (
            b"HTTP/1.1 500 Internal Server Error\r\n\r\n".as_slice(),
            38,
            Outcome::NoAnswer,
            b"".as_slice(),
        ),
        (b"".as_slice(), 0, Outcome::NoAnswer, b"".as_slice()),
    ] {
        let (took, said, found) = told(alloc, Reading::new(alloc, 2)?, text)?;
        assert_eq!(rt; (took, said), (taken, outcome));
        assert_eq!(rt; found.as_slice(), share);
    }
    Ok(())
}

#[test]
fn puts_are_read_byte_by_byte(rt: HostRuntime) -> Result<(), Fail> {
    let alloc = rt.alloc();
    for (text, taken, outcome) in [
        (b"HTTP/1.1 200 OK\r\n\r\n".as_slice(), 19, Outcome::Kept),
        (
            b"HTTP/1.1 200 OK\r\ncontent-length: 7\r\n\r\n".as_slice(),
            38,
            Outcome::Kept,
        ),
        (
            b"HTTP/1.1 404 Not Found\r\n\r\n".as_slice(),
            26,
            Outcome::NoAnswer,
        ),
        (
            b"HTTP/1.1 507 Insufficient Storage\r\n\r\n".as_slice(),
            37,
            Outcome::NoAnswer,
        ),
        (b"HTTP/1.1 200 OK\r\n\r".as_slice(), 18, Outcome::NoAnswer),
    ] {
        let (took, said, _) = told(alloc, Reading::of_put(alloc)?, text)?;
        assert_eq!(rt; (took, said), (taken, outcome));
    }
    Ok(())
}

// A head whose one header line has so many letters.
fn head_of(alloc: Global, letters: usize) -> Result<Vec<u8>, Fail> {
    let mut text = Vec::from_slice(alloc, b"HTTP/1.1 404 Not Found\r\nx: ")?;
    for _ in 0..letters {
        text.push(b'a')?;
    }
    text.extend_from_slice(b"\r\n\r\n")?;
    Ok(text)
}

#[test]
fn a_head_has_8192_bytes_at_most(rt: HostRuntime) -> Result<(), Fail> {
    let alloc = rt.alloc();
    for (letters, taken, outcome) in [
        (8161, 8192, Outcome::Missing),
        (8162, 8192, Outcome::NoAnswer),
        (9000, 8192, Outcome::NoAnswer),
        (8160, 8191, Outcome::Missing),
    ] {
        let text = head_of(alloc, letters)?;
        let mut reading = Reading::new(alloc, 2)?;
        assert_eq!(rt; reading.feed(&text), Fed::Done(outcome));
        let end = text.len().min(taken);
        let front = end.saturating_sub(1);
        let mut reading = Reading::new(alloc, 2)?;
        let Fed::More = reading.feed(&text[..front]) else {
            return Err(Fail::from("told too early"));
        };
        assert_eq!(rt; reading.feed(&text[front..end]), Fed::Done(outcome));
    }
    Ok(())
}
