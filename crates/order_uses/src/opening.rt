// Why rows aren't opened or changed.
use sat_base::Bytes;

/// Why no uses were opened, or a row wasn't finished.
#[derive(Debug, PartialEq, Eq, Drop)]
pub enum UsesErr {
    /// The keeper failed, and its count rose.
    Fault,
    /// This is the first row, in the order of the keys, that is none: not of the form, of an order that is none under the
    /// node's key or names another serial, or of more than its order or its limit allows.
    BadRow { kind: u8, id: Bytes },
    /// Memory ran out.
    NoMemory,
}
