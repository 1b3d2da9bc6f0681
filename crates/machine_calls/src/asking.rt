use sat_base::{CustomerId, Moment};

/// Who asks, under which number, and when: a numbered request but for what it asks.
#[derive(Clone, Copy)]
pub struct Asking {
    /// The customer, or 0 for the operator.
    pub caller: CustomerId,
    /// The number of the request, which its caller chose.
    pub number: u64,
    /// The moment at which it is done.
    pub time: Moment,
}
