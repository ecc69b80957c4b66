// Digests: RFC 1321's own vectors, lengths around a block's end and a long one beside what `md5sum` tells, and which texts are
// read.
use conffiles::Digest;
use std::alloc::{AllocError, Global};
use std::test::Fail;

const VECTORS: &[(&str, &str)] = &[
    ("", "d41d8cd98f00b204e9800998ecf8427e"),
    ("a", "0cc175b9c0f1b6a831c399e269772661"),
    ("abc", "900150983cd24fb0d6963f7d28e17f72"),
    ("message digest", "f96b697d7cb7938d525a2f31aaf161d0"),
    (
        "abcdefghijklmnopqrstuvwxyz",
        "c3fcd3d76192e4007dfb496cca67e13b",
    ),
    (
        "ABCDEFGHIJKLMNOPQRSTUVWXYZabcdefghijklmnopqrstuvwxyz0123456789",
        "d174ab98d277d9f5a5611c2c9f419d9f",
    ),
    (
        "12345678901234567890123456789012345678901234567890123456789012345678901234567890",
        "57edf4a22be3c955ac49da2e2107b67a",
    ),
];

// Of so many letters `a`.
const LENGTHS: &[(usize, &str)] = &[
    (0, "d41d8cd98f00b204e9800998ecf8427e"),
    (55, "ef1772b6dff9a122358552954ad0df65"),
    (56, "3b0c8ac703f828b04c6c197006d17218"),
    (63, "b06521f39153d618550606be297466d5"),
    (64, "014842d480b571495a4a0363793f7367"),
    (1_000_000, "7707d6ae4e027c70eea2a935c2296f21"),
];

const UNREAD: &[&str] = &[
    "",
    "0cc175b9c0f1b6a831c399e26977266",
    "0cc175b9c0f1b6a831c399e2697726611",
    "0CC175B9C0F1B6A831C399E269772661",
    "0cc175b9c0f1b6a831c399e26977266g",
    " cc175b9c0f1b6a831c399e269772661",
];

#[test]
fn vectors_have_their_digests(rt: HostRuntime) -> Result<(), Fail> {
    for (message, row) in VECTORS {
        let digest = Digest::of(message.as_bytes());
        assert_eq!(rt; digest.text(rt.alloc())?.as_str(), *row);
        assert!(rt; Digest::parse(row) == Some(digest));
    }
    Ok(())
}

#[test]
fn lengths_have_their_digests(rt: HostRuntime) -> Result<(), Fail> {
    for (length, row) in LENGTHS {
        let message = vec![in rt.alloc(); b'a'; *length]?;
        assert_eq!(rt;
            Digest::of(message.as_slice()).text(rt.alloc())?.as_str(),
            *row
        );
    }
    Ok(())
}

#[test]
fn other_texts_are_not_read(rt: HostRuntime) {
    for text in UNREAD {
        assert!(rt; Digest::parse(text).is_none(), "{text}");
    }
}
