// Why a request asks nothing.
/// Why the bytes of a connection ask nothing: the first of these that holds, but that of `Head`, `Short` and
/// `HeadSize` any that holds may come.
#[derive(Clone, Copy, Debug, PartialEq, Eq)]
pub enum EdgeErr {
    /// However the bytes go on, no head of a request stands at their front.
    Head,
    /// The bytes ended before a head of at most 64 header lines was whole.
    Short,
    /// No head of at most 64 header lines stands in the first 8192 bytes.
    HeadSize,
    /// No route has the path.
    NoRoute,
    /// The path's route has another method.
    BadMethod,
    /// The first `x-key` header isn't the caller's key in 64 hex digits.
    Key,
    /// A Transfer-Encoding header is there.
    Transfer,
    /// No Content-Length header is there.
    NoLength,
    /// Content-Length is there twice, or isn't 1 to 20 digits.
    BadLength,
    /// Content-Length is above 65536.
    BodySize,
    /// The bytes ended before the body was whole.
    ShortBody,
    /// The body isn't JSON.
    Json,
    /// A field of the body is wrong or missing. Its place is 1 for `request`, 2 for `len`, 3 for `pieces`,
    /// 4 for `order`, 5 for `free`, 6 for `addr`, 7 for `port`, 8 for `month`, 9 for `get`, 10 for `audit`,
    /// 11 for `repair`, 12 for `storage`.
    Field { place: u8 },
    /// Memory ran out.
    NoMemory,
}

/// Why there is no wish.
#[derive(Clone, Copy, Debug, PartialEq, Eq)]
pub enum ReadErr {
    /// A read failed.
    Fault,
    Edge(EdgeErr),
}
