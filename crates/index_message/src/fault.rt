//! Why the index does not serve a message.

/// The methods of a resource, as an `Allow` header lists them (RFC 9110, section 10.2.1).
#[derive(Clone, Copy, Debug, PartialEq, Eq, Hash)]
pub enum Allowed {
    /// `GET, HEAD`.
    Reading,
    /// `DELETE, GET, HEAD, PUT`.
    Files,
    /// `POST`.
    Requests,
}

/// Why the index does not serve a message, in the order of the checks.
#[derive(Clone, Copy, Debug, PartialEq, Eq, Hash)]
pub enum MessageFault {
    /// There is no request head in the first 16,384 bytes, or it has more than 64 header fields.
    BadHead,
    /// The path leads to nothing.
    NoRoute,
    /// The path has other methods, but not this one.
    BadMethod(Allowed),
    /// The length of the body is malformed, is given twice, or in another way than by `Content-Length`.
    BadLength,
    /// The length of the body is missing.
    NoLength,
    /// The body has too many bytes.
    BodyTooLarge,
    /// The input ended within the body.
    ShortBody,
    /// The body is not a valid request.
    BadBody,
    /// The `Accept` headers allow no type that can be served.
    NotAcceptable,
}
