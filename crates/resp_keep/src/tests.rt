use crate::{Digest, Kept, SharedKept, digest_of, same, same_text};
use scalar_val::{Bytes, NoMemory};
use std::alloc::Global;
use std::test::Fail;

fn bytes(alloc: Global, text: &str) -> Result<Bytes, NoMemory> {
    Ok(Bytes::of(Vec::from_slice(alloc, text.as_bytes())?))
}

/// Whether a text counts as the kept one, with its own digest and without.
fn counts_as(alloc: Global, kept: &Kept, text: &str) -> Result<(bool, bool), NoMemory> {
    let text = bytes(alloc, text)?;
    let with_digest = same(kept, &text, &digest_of(&text));
    Ok((with_digest, same_text(kept, &text)))
}

fn is_send_and_sync<T: Send + Sync>() {}

#[test]
fn kept_texts_may_be_shared_with_other_threads() {
    is_send_and_sync::<Kept>();
    is_send_and_sync::<SharedKept>();
}

#[test]
fn only_an_equal_text_is_the_same(rt: HostRuntime) -> Result<(), Fail> {
    let alloc = rt.alloc();
    let kept = Kept::new(bytes(alloc, "{\"data\":1}")?);
    for (text, expected) in [
        ("{\"data\":1}", true),
        ("{\"data\":2}", false),
        ("{\"data\":1} ", false),
        ("", false),
    ] {
        assert!(rt; counts_as(alloc, &kept, text)? == (expected, expected));
    }
    Ok(())
}

// The digest is the example of FIPS 180-2, appendix B.1.
#[test]
fn a_digest_is_that_of_the_text(rt: HostRuntime) -> Result<(), Fail> {
    let alloc = rt.alloc();
    let kept = SharedKept::of(alloc, Kept::new(bytes(alloc, "abc")?))?;
    let other = kept.share()?;
    drop(kept);
    let expected = Digest {
        bytes: [
            0xba, 0x78, 0x16, 0xbf, 0x8f, 0x01, 0xcf, 0xea, 0x41, 0x41, 0x40, 0xde, 0x5d, 0xae,
            0x22, 0x23, 0xb0, 0x03, 0x61, 0xa3, 0x96, 0x17, 0x7a, 0x9c, 0xb4, 0x10, 0xff, 0x61,
            0xf2, 0x00, 0x15, 0xad,
        ],
    };
    assert!(rt; other.kept().digest() == expected);
    assert_eq!(rt; other.kept().text().as_slice(), b"abc".as_slice());
    Ok(())
}

// The digest is that of the message of no bits in NIST's test vectors for SHA-256.
#[test]
fn an_empty_text_has_a_digest(rt: HostRuntime) -> Result<(), Fail> {
    let text = bytes(rt.alloc(), "")?;
    let expected = Digest {
        bytes: [
            0xe3, 0xb0, 0xc4, 0x42, 0x98, 0xfc, 0x1c, 0x14, 0x9a, 0xfb, 0xf4, 0xc8, 0x99, 0x6f,
            0xb9, 0x24, 0x27, 0xae, 0x41, 0xe4, 0x64, 0x9b, 0x93, 0x4c, 0xa4, 0x95, 0x99, 0x1b,
            0x78, 0x52, 0xb8, 0x55,
        ],
    };
    assert!(rt; digest_of(&text) == expected);
    Ok(())
}
