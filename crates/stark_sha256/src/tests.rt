//! Worked cases. Byte k of the text in lane j is (k mod 251) * (2 * j + 3), modulo 256. The digests
//! were computed in Python: with hashlib, and those of pairs by the standard's compression function
//! written there.
use crate::{compress_eight, compress_pair, compress_pairs, sha256_eight, sha256_lanes};
use std::alloc::Global;
use std::test::Fail;

// The byte at the front in the first lane, and in each further one 17 more modulo 256; how many
// bytes the first piece and the second one have, and how many more the first piece has from lane to
// lane => the first bytes of each digest.
const CASES: &str = r#"
# A leaf: a byte and one piece.
0 0 0 0 => 6e340b9cffb37a98 4a64a107f0cb3253 8a331fdde7032f33 4e07408562bedb8b
0 1 0 0 => 96a296d224f285c6 d94e7f1e9bb1f8a9 37aa3970b6801c9d ac11339ffa8f270c
0 2 0 0 => f31b2b6ef48dff58 b3519306cf45e249 5bcb4dbb5b996968 040aafd5992d2854
0 3 0 0 => 7c19dfda758a49af 7723cb951f9b02ea a05f4d67aff1c811 74b541d767f6f590
0 4 0 0 => eff9d7e2fa53e021 30cd6df5e0c0a480 f8c7893a5b8398a0 c2a2472bbe47824a
0 53 0 0 => cc0594d8f71ea40a 7513ffdd7872973f d17f31fae539f9a8 9e7919840e33815e
0 54 0 0 => cfb2db0bab63a3a4 56458bf1031515ee 1cf09df9f3e5ee95 e0c8b68d093515c4
0 55 0 0 => 02d385f901934660 dd3043dcb8ff6c51 1bf60a808ac497e9 87a7419bb54c11be
0 56 0 0 => d39f1a5bdd74a9e2 375c33aca7c54418 8c68052af40d1a15 f301a2545afa2ec9
0 61 0 0 => 2e809eec82328cac 4080ea5c7fcbe532 f861c13536d834d5 43cdf97c72c83370
0 62 0 0 => e115a6a618907275 274df96ea09572c1 472d08e2bafe9b72 953d9892700ba283
0 63 0 0 => 7bf8c510291c9f12 e35a17ad7cfdf5a4 4371ac882f9100ee 52931c28de716baf
0 64 0 0 => f624b82e4f64f4d0 138f9b1652bc8d54 b036c3287dce02ff 81ac0d4554f6f781
0 65 0 0 => c96fe2d8b1121abe 3910ef0a5d011462 d68e2911dba7b925 09a60b8fec9b9ae7
0 76 0 0 => bebe0ab343848efd a91de5ab6d2bb40f 6126a0efc8a0dfa6 55acee21abb1779b
0 118 0 0 => e6bda3eea970c3ee 5871f200a2c54756 5a8c993000e37dc2 5a50f7038a9baaac
0 119 0 0 => c13d4d9a8a4a7b72 49bb4929e0e63f27 7dc0634c9254d6f8 6a5bc8286cca99fa
0 120 0 0 => 1a787c7398bf45bf 4bd8140da274b671 eeec2bca1df6bda6 052f973fb59b0f23
0 127 0 0 => 40a04495764b689c f6cbb55cbb93dab8 29351636144bd2cb 0463059dfd1a0a51
0 1000 0 0 => 3131096c94aefc7c 6c04497c501792d9 34a9e3254985432e e4178f53c33bef5e

# A node, and other second pieces.
1 32 32 0 => dc49232561f4aa38 7c05bb52e40e4192 f81276612643b595 015fd21542bd72ca
1 0 54 0 => de52b181c31d2629 eedd7be1ae626ccf bff46c98d20466e3 beff0af4dba8ffad
1 1 54 0 => 7b3b7b5700c9d460 8f21ae2c239562b6 1b6ef76973434c6f 955a513d4f38fdea
1 2 53 0 => 7b3b7b5700c9d460 8f21ae2c239562b6 1b6ef76973434c6f 955a513d4f38fdea
1 3 61 0 => dc49232561f4aa38 7c05bb52e40e4192 f81276612643b595 015fd21542bd72ca
1 7 200 0 => ed4cca34a117f3c4 49378ca879aac944 f9c413b12ff9ae5c be27cce1bafc8c2b
1 61 3 0 => dc49232561f4aa38 7c05bb52e40e4192 f81276612643b595 015fd21542bd72ca
1 62 2 0 => dc49232561f4aa38 7c05bb52e40e4192 f81276612643b595 015fd21542bd72ca
1 63 65 0 => d9b0d44ce292b126 d6fddaff76e8152d 956f6d7e5c99ac89 db7acfabccd0bc31
1 64 64 0 => d9b0d44ce292b126 d6fddaff76e8152d 956f6d7e5c99ac89 db7acfabccd0bc31

# Texts of different lengths.
0 54 0 1 => cfb2db0bab63a3a4 dd3043dcb8ff6c51 8c68052af40d1a15 755908e8fe42f19b
255 30 33 64 => 17cfa100158637a1 2ea29644901b9f1d fb1aba8c1612c427 2c42778bbf500889
"#;

// Where in a lane's text the 64 bytes of its pair begin => the first bytes of each pair's digest.
const PAIRS: &str = r#"
0 => bf70ecb7f26b497b 0101bfa141e8af95 02ed691b09f1cc12 1edc8624ba8ea571
1 => b45aece0daefb99a 35d293eef141cfe4 ea8257fa4593abcf 9c22fd976bc811d0
32 => 45d3e5e66644bcc4 ea0f611ed84dda13 4f9cfdbc0a576ce2 388b6d93612bb27d
187 => 8566fbbb8d7068c2 6c91a9fd756ce078 3cb50bd4d50aca17 ee801d3dddcaa480
230 => f9c87fdb8f70bfd3 0e6bcb0740481665 60e24970374f0afa b3013b9e9370f5d0
"#;

/// The two pieces after a text's first byte.
#[derive(Drop)]
struct Pieces {
    first: Vec<u8>,
    second: Vec<u8>,
}

/// The byte at a place of a lane's text.
fn byte_at(lane: usize, place: usize) -> u8 {
    ((place % 251) * (2 * (lane % 4) + 3) % 256) as u8
}

/// `len` bytes of a text, from a place on.
fn bytes_of(alloc: Global, lane: usize, start: usize, len: usize) -> Result<Vec<u8>, Fail> {
    let mut bytes = Vec::new(alloc);
    for place in start..start.saturating_add(len) {
        bytes.push(byte_at(lane, place))?;
    }
    Ok(bytes)
}

/// The pieces of the text in a lane, of these lengths.
fn pieces_of(
    alloc: Global,
    lane: usize,
    first_len: usize,
    second_len: usize,
) -> Result<Pieces, Fail> {
    Ok(Pieces {
        first: bytes_of(alloc, lane, 0, first_len)?,
        second: bytes_of(alloc, lane, first_len, second_len)?,
    })
}

/// The first bytes of each digest.
fn shown(alloc: Global, digests: [[u8; 32]; 4]) -> Result<String, Fail> {
    let mut text = String::new(alloc);
    for digest in &digests {
        if !text.is_empty() {
            text.push(' ')?;
        }
        text.push_str(&hex::encode(alloc, &digest[..8])?)?;
    }
    Ok(text)
}

/// The number that a case has next, and the rest of it.
fn next_number(case: &str) -> Result<(usize, &str), Fail> {
    let (number, rest) = case.split_once(' ').unwrap_or((case, ""));
    Ok((number.parse::<usize>()?, rest))
}

/// Whether eight digests are four in the opposite order, and then in theirs.
fn is_twice(eight: &[[u8; 32]; 8], four: &[[u8; 32]; 4]) -> bool {
    for lane in 0..4 {
        if eight[3 - lane] != four[lane] || eight[4 + lane] != four[lane] {
            return false;
        }
    }
    true
}

/// The answer to a case.
fn answer(alloc: Global, case: &str) -> Result<String, Fail> {
    let (tag, rest) = next_number(case)?;
    let (first_len, rest) = next_number(rest)?;
    let (second_len, rest) = next_number(rest)?;
    let (more, _) = next_number(rest)?;
    let tag = u8::try_from(tag).ok().ok_or("no byte")?;
    let one = pieces_of(alloc, 0, first_len, second_len)?;
    let two = pieces_of(alloc, 1, first_len.saturating_add(more), second_len)?;
    let more_twice = more.saturating_mul(2);
    let three = pieces_of(alloc, 2, first_len.saturating_add(more_twice), second_len)?;
    let more_thrice = more.saturating_mul(3);
    let four = pieces_of(alloc, 3, first_len.saturating_add(more_thrice), second_len)?;
    let tags = [0, 17, 34, 51].map(|more| tag.wrapping_add(more));
    let digests = sha256_lanes(
        tags,
        &[&one.first, &two.first, &three.first, &four.first],
        &[&one.second, &two.second, &three.second, &four.second],
    );
    let [a, b, c, d] = tags;
    let eight_tags = [d, c, b, a, a, b, c, d];
    let first: [&[u8]; 8] = [
        &four.first,
        &three.first,
        &two.first,
        &one.first,
        &one.first,
        &two.first,
        &three.first,
        &four.first,
    ];
    let second: [&[u8]; 8] = [
        &four.second,
        &three.second,
        &two.second,
        &one.second,
        &one.second,
        &two.second,
        &three.second,
        &four.second,
    ];
    let eight = sha256_lanes(eight_tags, &first, &second);
    if sha256_eight(eight_tags, &first, &second) != eight {
        return Err(Fail::new("eight texts have other digests by the width"));
    }
    if !is_twice(&eight, &digests) {
        return Err(Fail::new("eight texts have other digests than four"));
    }
    shown(alloc, digests)
}

/// The 32 bytes of a text from a place on.
fn digest_from(lane: usize, start: usize) -> [u8; 32] {
    let mut digest = [0; 32];
    for place in 0..32 {
        digest[place] = byte_at(lane, start.saturating_add(place));
    }
    digest
}

/// The digests of the pairs whose bytes begin at a place.
fn pair_answer(alloc: Global, case: &str) -> Result<String, Fail> {
    let start = case.parse::<usize>()?;
    let middle = start.saturating_add(32);
    let mut pairs = [[0; 32]; 16];
    for place in 0..8 {
        let lane = if place < 4 { 3 - place } else { place - 4 };
        pairs[2 * place] = digest_from(lane, start);
        pairs[2 * place + 1] = digest_from(lane, middle);
    }
    let all = &pairs[..];
    let digests = compress_pairs(&all[8..]);
    let eight = compress_pairs(all);
    if compress_eight(all) != eight {
        return Err(Fail::new("eight pairs have other digests by the width"));
    }
    if !is_twice(&eight, &digests) {
        return Err(Fail::new("eight pairs have other digests than four"));
    }
    if compress_pair(&pairs[12], &pairs[13]) != digests[2] {
        return Err(Fail::new("a pair alone has another digest"));
    }
    shown(alloc, digests)
}

#[test]
fn cases_are_answered(rt: HostRuntime) -> Result<(), Fail> {
    let mut count = 0usize;
    for case in CASES.lines() {
        if !case.is_empty() && !case.starts_with('#') {
            let (input, expected) = case.split_once(" => ").ok_or("a case without an answer")?;
            let actual = answer(rt.alloc(), input)?;
            assert_eq!(rt; actual.as_str(), expected, "{input}");
            count = count.saturating_add(1);
        }
    }
    assert_eq!(rt; count, 32);
    Ok(())
}

#[test]
fn pairs_are_compressed(rt: HostRuntime) -> Result<(), Fail> {
    let mut count = 0usize;
    for case in PAIRS.lines() {
        if !case.is_empty() {
            let (input, expected) = case.split_once(" => ").ok_or("a case without an answer")?;
            let actual = pair_answer(rt.alloc(), input)?;
            assert_eq!(rt; actual.as_str(), expected, "{input}");
            count = count.saturating_add(1);
        }
    }
    assert_eq!(rt; count, 5);
    Ok(())
}
