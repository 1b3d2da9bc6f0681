// The words of a storage node.
ghost use Rattle.std.specs.Prelude.{◌≡◌, ◌≤◌, IfSome, length, drop, option_map};
ghost use Rattle.stor_node_cli.specs.Said.{places_said, who_said, words_said};
ghost use Rattle.stor_node_cli.specs.Words.{addr_or_usual, is_loopback, node_of, places_of, port_of, run_of, who_of};

use crate::bounds;
use address_text::address;
use sat_base::{Line, NodeId};
use word_pairs::{has_form, number_in, number_or_in, secret_in, value};

/// What a storage node is asked for.
#[derive(Clone, Copy, Debug)]
pub struct NodeWords<'a> {
    pub node: NodeId,
    /// The node's key.
    pub key: [u8; 32],
    /// The folder of its pieces and its orders.
    pub dir: &'a str,
    pub port: u16,
    /// The port of this machine at which the satellite answers.
    pub satellite: u16,
    /// The most orders that are kept.
    pub cap: u32,
    /// The address at which it listens, IPv4.
    pub addr: u32,
}

// Whose pieces they are.
#[derive(Clone, Copy, Debug)]
pub(crate) struct WhoWords {
    pub node: NodeId,
    pub key: [u8; 32],
}

// Where it listens, and where the satellite does.
#[derive(Clone, Copy, Debug)]
pub(crate) struct PlaceWords {
    pub port: u16,
    pub satellite: u16,
    pub addr: u32,
}

// Whether an address is one of this machine.
fn is_loopback(addr: u32) -> bool
    ensures { result ≡ is_loopback addr }
{
    bounds::LOOPBACK_FIRST <= addr && addr <= bounds::LOOPBACK_LAST
}

// An address of this machine, or the usual one where there is no text.
fn addr_in(text: Option<&str>) -> Option<u32>
    ensures { result ≡ addr_or_usual (option_map (λ v. v.now) text.entry) }
{
    match text {
        None => Some(bounds::USUAL_ADDR),
        Some(text) => {
            let addr = address(text.as_bytes())?;
            if is_loopback(addr) { Some(addr) } else { None }
        }
    }
}

#[tactic(auto, unfolding(crate::specs::Words::who_of))]
fn who_in(line: &Line) -> Option<WhoWords>
    requires { 1 ≤ length line.now }
    ensures { option_map who_said result ≡ who_of (drop 1 line.now) }
{
    let node = number_in(1, bounds::NODE, value(line, "--node", 1))?;
    let key = secret_in(value(line, "--key", 1))?;
    Some(WhoWords {
        node: NodeId(node as u32),
        key,
    })
}

fn port_in(line: &Line, name: &str) -> Option<u16>
    requires { 1 ≤ length line.now }
    ensures { result ≡ port_of name.now (drop 1 line.now) }
{
    let port = number_in(1, bounds::PORT, value(line, name, 1))?;
    Some(port as u16)
}

#[tactic(auto, unfolding(crate::specs::Words::places_of))]
fn places_in(line: &Line) -> Option<PlaceWords>
    requires { 1 ≤ length line.now }
    ensures { option_map places_said result ≡ places_of (drop 1 line.now) }
{
    let port = port_in(line, "--port")?;
    let satellite = port_in(line, "--satellite")?;
    let addr = addr_in(value(line, "--addr", 1))?;
    Some(PlaceWords {
        port,
        satellite,
        addr,
    })
}

const NAMES: [&str; 7] = [
    "--node",
    "--key",
    "--dir",
    "--port",
    "--satellite",
    "--cap",
    "--addr",
];

// What the words behind `run` ask for.
#[tactic(auto, unfolding(crate::specs::Words::run_of))]
fn run_in<'a>(line: &'a Line) -> Option<NodeWords<'a>>
    requires { 1 ≤ length line.now }
    ensures { option_map words_said result ≡ run_of (drop 1 line.now) }
{
    if !has_form(line, &NAMES) {
        return None;
    }
    let WhoWords { node, key } = who_in(line)?;
    let dir = value(line, "--dir", 1)?;
    let PlaceWords {
        port,
        satellite,
        addr,
    } = places_in(line)?;
    let cap = number_or_in(bounds::USUAL_CAP, 1, bounds::CAP, value(line, "--cap", 1))?;
    Some(NodeWords {
        node,
        key,
        dir,
        port,
        satellite,
        cap: cap as u32,
        addr,
    })
}

/// Reads the words behind the program's name: `run` with `--node N`, `--key HEX64`, `--dir FOLDER`, `--port P` and
/// `--satellite P`, and, where wanted, `--cap N` and `--addr A.B.C.D`, an address of 127.0.0.0/8. None for any other words.
#[tactic(auto, unfolding(crate::specs::Words::node_of))]
pub fn read_words<'a>(line: &'a Line) -> Option<NodeWords<'a>>
    ensures { option_map words_said result ≡ node_of line.now }
{
    if line.is_empty() {
        return None;
    }
    if line.word(0) != "run" {
        return None;
    }
    run_in(line)
}
