//! SHA-256 digests.
use index_digest::{Digest256, Sealed};
use std::alloc::AllocGlobal;
use std::process::Abort;

/// A message has the digest of this text, which is read and written.
fn assert_digest(rt: &impl Abort, message: &[u8], text: &[u8; 64]) {
    let digest = Digest256::of(message);
    let mut written = [b' '; 64];
    digest.hex_into(&mut written);
    assert!(rt; &written == text);
    assert!(rt; Digest256::read_hex(text) == Some(digest));
}

/// The examples of FIPS 180-4 and the empty message.
#[test]
fn examples_of_the_standard(rt: HostRuntime) {
    assert_digest(
        &rt,
        b"",
        b"e3b0c44298fc1c149afbf4c8996fb92427ae41e4649b934ca495991b7852b855",
    );
    assert_digest(
        &rt,
        b"abc",
        b"ba7816bf8f01cfea414140de5dae2223b00361a396177a9cb410ff61f20015ad",
    );
    assert_digest(
        &rt,
        b"abcdbcdecdefdefgefghfghighijhijkijkljklmklmnlmnomnopnopq",
        b"248d6a61d20638b8e5c026930c3e6039a33ce45964ff2167f6ecedd419db06c1",
    );
    assert_digest(
        &rt,
        b"abcdefghbcdefghicdefghijdefghijkefghijklfghijklmghijklmnhijklmnoijklmnopjklmnopqklmnopqrlmnopqrsmnopqrstnopqrstu",
        b"cf5b16a778af8380036ce59e7b0492370b249b11e8f07a51afac45037afee9d1",
    );
    let million = vec![in rt.alloc(); b'a'; 1_000_000].expect(&rt, "a message");
    assert_digest(
        &rt,
        million.as_slice(),
        b"cdc76e5c9914fb9281a1c7e284d73e67f1809a48a497200e046d39ccc7112cd0",
    );
}

/// From NIST's SHA256ShortMsg.rsp: 1 to 7 bytes.
#[test]
fn short_messages_of_nist(rt: HostRuntime) {
    assert_digest(
        &rt,
        b"\xd3",
        b"28969cdfa74a12c82f3bad960b0b000aca2ac329deea5c2328ebc6f2ba9802c1",
    );
    assert_digest(
        &rt,
        b"\x11\xaf",
        b"5ca7133fa735326081558ac312c620eeca9970d1e70a4b95533d956f072d1f98",
    );
    assert_digest(
        &rt,
        b"\xb4\x19\x0e",
        b"dff2e73091f6c05e528896c4c831b9448653dc2ff043528f6769437bc7b975c2",
    );
    assert_digest(
        &rt,
        b"\x74\xba\x25\x21",
        b"b16aa56be3880d18cd41e68384cf1ec8c17680c45a02b1575dc1518923ae8b0e",
    );
    assert_digest(
        &rt,
        b"\xc2\x99\x20\x96\x82",
        b"f0887fe961c9cd3beab957e8222494abb969b1ce4c6557976df8b0f6d20e9166",
    );
    assert_digest(
        &rt,
        b"\xe1\xdc\x72\x4d\x56\x21",
        b"eca0a060b489636225b4fa64d267dabbe44273067ac679f20820bddc6b6a90ac",
    );
    assert_digest(
        &rt,
        b"\x06\xe0\x76\xf5\xa4\x42\xd5",
        b"3fd877e27450e6bbd5d74bb82f9870c64c66e109418baa8e6bbcff355e287926",
    );
}

/// From the same file: 8 to 11, 16 and 64 bytes.
#[test]
fn longer_messages_of_nist(rt: HostRuntime) {
    assert_digest(
        &rt,
        b"\x57\x38\xc9\x29\xc4\xf4\xcc\xb6",
        b"963bb88f27f512777aab6c8b1a02c70ec0ad651d428f870036e1917120fb48bf",
    );
    assert_digest(
        &rt,
        b"\x33\x34\xc5\x80\x75\xd3\xf4\x13\x9e",
        b"078da3d77ed43bd3037a433fd0341855023793f9afd08b4b08ea1e5597ceef20",
    );
    assert_digest(
        &rt,
        b"\x74\xcb\x93\x81\xd8\x9f\x5a\xa7\x33\x68",
        b"73d6fad1caaa75b43b21733561fd3958bdc555194a037c2addec19dc2d7a52bd",
    );
    assert_digest(
        &rt,
        b"\x76\xed\x24\xa0\xf4\x0a\x41\x22\x1e\xbf\xcf",
        b"044cef802901932e46dc46b2545e6c99c0fc323a0ed99b081bda4216857f38ac",
    );
    assert_digest(
        &rt,
        b"\x0a\x27\x84\x7c\xdc\x98\xbd\x6f\x62\x22\x0b\x04\x6e\xdd\x76\x2b",
        b"80c25ec1600587e7f28b18b1b18e3cdc89928e39cab3bc25e4d4a4c139bcedc4",
    );
    assert_digest(
        &rt,
        b"\x5a\x86\xb7\x37\xea\xea\x8e\xe9\x76\xa0\xa2\x4d\xa6\x3e\x7e\xd7\xee\xfa\xd1\x8a\x10\x1c\x12\x11\xe2\xb3\x65\x0c\x51\x87\xc2\xa8\xa6\x50\x54\x72\x08\x25\x1f\x6d\x42\x37\xe6\x61\xc7\xbf\x4c\x77\xf3\x35\x39\x03\x94\xc3\x7f\xa1\xa9\xf9\xbe\x83\x6a\xc2\x85\x09",
        b"42e61e174fbb3897d6dd6cef3dd2802fe67b331953b06114a65c772859dfc1aa",
    );
}

/// In each line a text that is not a digest: an empty one, a digit too few, one too many, upper case, the neighbours of
/// the digits in ASCII.
const NO_DIGESTS: &str = "
ba7816bf8f01cfea414140de5dae2223b00361a396177a9cb410ff61f20015a
ba7816bf8f01cfea414140de5dae2223b00361a396177a9cb410ff61f20015add
BA7816BF8F01CFEA414140DE5DAE2223B00361A396177A9CB410FF61F20015AD
ba7816bf8f01cfea414140de5dae2223b00361a396177a9cb410ff61f20015aD
ga7816bf8f01cfea414140de5dae2223b00361a396177a9cb410ff61f20015ad
ba7816bf8f01cfea414140de5dae222/b00361a396177a9cb410ff61f20015ad
ba7816bf8f01cfea414140de5dae222:b00361a396177a9cb410ff61f20015ad";

#[test]
fn refused_texts(rt: HostRuntime) {
    for text in NO_DIGESTS.lines() {
        assert!(rt; Digest256::read_hex(text.as_bytes()).is_none(), "{text}");
    }
}

#[test]
fn bytes_of_a_digest(rt: HostRuntime) {
    let mut bytes = [0u8; 32];
    bytes[31] = 0xad;
    let digest = Digest256::from_bytes(bytes);
    assert!(rt; digest.to_bytes() == bytes);
    assert!(rt; digest != Digest256::of(b"abc"));
    let mut text = [b' '; 64];
    digest.hex_into(&mut text);
    let want = b"00000000000000000000000000000000000000000000000000000000000000ad";
    assert!(rt; &text == want);
}

/// The digest of `abc`, read from its text.
fn declared(rt: &impl Abort) -> Digest256 {
    let text = b"ba7816bf8f01cfea414140de5dae2223b00361a396177a9cb410ff61f20015ad";
    Digest256::read_hex(text).expect(rt, "a digest")
}

#[test]
fn sealed_bytes(rt: HostRuntime) {
    let bytes = b"abc".to_vec(rt.alloc()).expect(&rt, "bytes");
    let sealed = Sealed::new(bytes, declared(&rt)).expect(&rt, "not kept");
    assert!(rt; sealed.bytes() == b"abc".as_slice());
    assert!(rt; sealed.digest() == declared(&rt));
}

#[test]
fn other_bytes_come_back(rt: HostRuntime) {
    let bytes = b"abd".to_vec(rt.alloc()).expect(&rt, "bytes");
    let returned = Sealed::new(bytes, declared(&rt)).err().expect(&rt, "kept");
    assert!(rt; returned.as_slice() == b"abd".as_slice());
}
