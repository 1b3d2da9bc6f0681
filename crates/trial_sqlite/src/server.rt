// A server over a database, whose lane is a real port.
mod asking;
mod months;
mod network;
mod nodes;
mod served;

pub use months::months;
pub use network::{Network, run};
