//! Lines of JSON: the requests in them, and the texts of answers and standings.
mod answers;
mod lines;

/// The SHA-256 digest of `abc`, an example of FIPS 180-4.
const OF_ABC: &str = "ba7816bf8f01cfea414140de5dae2223b00361a396177a9cb410ff61f20015ad";

/// The SHA-256 digest of `a`.
const OF_A: &str = "ca978112ca1bbdcafac231b39a23dc4da786eff8147c4e72b9807785afee48bb";
