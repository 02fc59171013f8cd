// Words and their signs from the format's text, and bytes that are no signs.

use dgn_radix50::*;

const WORDS: [(u16, [u8; 3]); 7] = [
    (0, *b"   "),
    (1, *b"  A"),
    (1683, *b"ABC"),
    (11414, *b"GEN"),
    (44349, *b"$.%"),
    (49231, *b"001"),
    (63999, *b"999"),
];

#[test]
fn words_and_signs(rt: HostRuntime) {
    for (word, signs) in WORDS {
        assert!(rt; unpack(word) == Some(signs), "at {word}");
        assert!(rt; pack(signs) == Some(word), "at {word}");
    }
    for bytes in [*b"abc", *b"AB-", *b"\x00AB", *b"A\xC1B", *b"AB@"] {
        assert!(rt; pack(bytes) == None);
    }
}

// From 64000 on a word stands for no signs: one that took any word would say three of them of the first.
#[test]
fn words_without_signs(rt: HostRuntime) {
    for word in [64000, 65535] {
        assert!(rt; unpack(word) == None, "at {word}");
    }
}
