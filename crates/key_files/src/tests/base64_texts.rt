//! Base64 texts whose meaning RFC 4648 gives, and texts that are none.

use super::is_answer;
use crate::{Alphabet, FileFault, decode_symbols_into, print_base64, read_base64};
use std::alloc::Global;
use std::process::Abort;
use std::test::Fail;
use test_doubles::Trickle;

// RFC 4648, section 10.
static VECTORS: [(&[u8], &[u8]); 7] = [
    (b"", b""),
    (b"f", b"Zg=="),
    (b"fo", b"Zm8="),
    (b"foo", b"Zm9v"),
    (b"foob", b"Zm9vYg=="),
    (b"fooba", b"Zm9vYmE="),
    (b"foobar", b"Zm9vYmFy"),
];

static TEXTS: [(&[u8], Result<&[u8], FileFault>); 17] = [
    (b"Zg", Ok(b"f")),
    (b"Zm8", Ok(b"fo")),
    (b"+/8=", Ok(b"\xfb\xff")),
    (b"-_8", Ok(b"\xfb\xff")),
    (b"-_8=", Ok(b"\xfb\xff")),
    (b"Z", Err(FileFault::BadBase64Length)),
    (b"=", Err(FileFault::BadBase64Length)),
    (b"Zg=", Err(FileFault::BadBase64Length)),
    (b"Zm8==", Err(FileFault::BadBase64Length)),
    (b"Zm9v====", Err(FileFault::BadBase64Length)),
    (b"Zh==", Err(FileFault::TrailingBits)),
    (b"Zm9", Err(FileFault::TrailingBits)),
    (b"Zg==Zg==", Err(FileFault::BehindPadding { at: 4 })),
    (b"+AA_", Err(FileFault::BadCharacter { at: 3 })),
    (b"_AA+", Err(FileFault::BadCharacter { at: 3 })),
    (b"Zg*=", Err(FileFault::BadCharacter { at: 2 })),
    (b"\xef\xbb\xbfZg", Err(FileFault::BadCharacter { at: 0 })),
];

// Of each the same with blanks around and between, which a text without them refuses.
static SPACED: [(&[u8], Result<&[u8], FileFault>, usize); 3] = [
    (b"Zm9v\r\nYmFy\n", Ok(b"foobar"), 4),
    (b"Zm8 =\t", Ok(b"fo"), 3),
    (b" Zg= =\nZg", Err(FileFault::BehindPadding { at: 7 }), 0),
];

#[test]
fn decodes_base64_texts_and_files(rt: HostRuntime) {
    for (bytes, text) in &VECTORS {
        means(&rt, rt.alloc(), text, Ok(*bytes), Ok(*bytes));
    }
    for (text, want) in &TEXTS {
        means(&rt, rt.alloc(), text, *want, *want);
    }
    for (text, want, blank) in &SPACED {
        let refused = Err(FileFault::BadCharacter { at: *blank });
        means(&rt, rt.alloc(), text, *want, refused);
    }
}

// Checks what a text denotes as a file, and as a text in which blanks are not allowed.
fn means(
    rt: &impl Abort,
    alloc: Global,
    text: &[u8],
    file: Result<&[u8], FileFault>,
    alone: Result<&[u8], FileFault>,
) {
    let answer = read_base64(alloc, &mut Trickle::in_pieces(text, 3), text.len());
    assert!(rt; is_answer(answer, file), "{text:?}");
    let mut bytes = Vec::new(alloc);
    let answer = decode_symbols_into(text, &mut bytes).map(|()| bytes);
    assert!(rt; is_answer(answer, alone), "{text:?}");
}

#[test]
fn prints_base64_lines(rt: HostRuntime) -> Result<(), Fail> {
    let mut line = Vec::new(rt.alloc());
    for (bytes, text) in &VECTORS {
        print_base64(Alphabet::Standard, bytes, &mut line)?;
        assert!(rt;
            line.as_slice().strip_suffix(b"\n") == Some(*text),
            "{text:?}"
        );
    }
    print_base64(Alphabet::Standard, b"\xfb\xff", &mut line)?;
    assert!(rt; line.as_slice() == b"+/8=\n".as_slice());
    print_base64(Alphabet::UrlSafe, b"\xfb\xff", &mut line)?;
    assert!(rt; line.as_slice() == b"-_8\n".as_slice());
    Ok(())
}
