// Schemes of worked numbers.
use sat_base::Scheme;
use std::process::Abort;

/// The scheme of these numbers.
pub fn scheme(rt: &impl Abort, k: u64, m: u64, o: u64, n: u64, share: u64) -> Scheme {
    match Scheme::check(k, m, o, n, share) {
        Ok(scheme) => scheme,
        Err(_) => panic!(rt; "no scheme"),
    }
}
