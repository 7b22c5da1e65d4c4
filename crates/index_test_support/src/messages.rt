//! Texts of HTTP/1.1 messages for tests: requests, and the replies that are expected.

/// A message without a body: its method and target, and its header lines.
#[macro_export]
macro_rules! look {
    ($target:literal $($line:literal)*) => {
        concat!($target, " HTTP/1.1\r\nHost: index\r\n", $($line, "\r\n",)* "\r\n")
    };
}

/// A request in JSON, by the bearer of a token.
#[macro_export]
macro_rules! post {
    ($token:literal, $length:literal, $body:literal) => {
        concat!(
            "POST /requests HTTP/1.1\r\nHost: index\r\nX-Index-Token: ",
            $token,
            "\r\nContent-Length: ",
            $length,
            "\r\n\r\n",
            $body
        )
    };
}

/// A reply with a status, header lines, and a body of this length.
#[macro_export]
macro_rules! reply {
    ($status:literal, [$($line:literal)*], $length:literal, $($body:literal)*) => {
        concat!(
            "HTTP/1.1 ",
            $status,
            "\r\n",
            $($line, "\r\n",)*
            "Content-Length: ",
            $length,
            "\r\nConnection: close\r\n\r\n",
            $($body,)*
        )
    };
}

/// A reply in JSON.
#[macro_export]
macro_rules! json_reply {
    ($status:literal, $length:literal, $body:literal) => {
        $crate::reply!($status, ["Content-Type: application/json"], $length, $body)
    };
}
