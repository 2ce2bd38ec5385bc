//! Worked cases of trees over SHA-256. Row i of a tree is the text `row i`. The digests were
//! computed in Python with hashlib, and which altered claims are refused by a verifier written
//! there.
use crate::{
    Root, Sha256Tree, TreeHash, eight_lead, is_path_to, leaves, path_in, root_in, tree_layers,
};
use serde_json::Value;
use stark_support::{JsonCodec, JsonFault, value_from_bytes};
use std::alloc::Global;
use std::test::Fail;

// A table's name | what is given => the answer.
const CASES: &str = r#"
# How many leaves there are. Answered is the root.
root | 1 => 000c835b247f77f7f1a2ade1f76cd63e3760a4b5407fb46a7969c55413496358
root | 2 => 1e51411e5d2695bc0b1a3e49d0dab18a13b16329ccbcb8a8cfad4184be1c21d4
root | 4 => e1ca8f1c79bc6f3f00ee933d796b970d7aecbd8564918e78f041db2e7fec6c59
root | 8 => ede82a9e34132fd4cd97e7c157492e4b9296d1fb7fd8d68e16239e56e1738023
root | 16 => faf9e9c9eaf284a4bffce23b6dd47c62bfa71331504eb221301fb9d78ebd4052
root | 32 => 5184530627c1b87f8edf00ec5fbef6e1870f65058ae9da827d7a984b958e8914
root | 128 => 7b98411a6c5cd582504e07ab761e453bd3d1dbf8fa8768f5a1aa235d1370aa81

# How many leaves, and a place. Answered are the first bytes of the path's digests, lowest first.
path | 1 0 => no digests
path | 2 0 => 6cbe30c8
path | 2 1 => 000c835b
path | 4 0 => 6cbe30c8 b4b8dc6e
path | 4 1 => 000c835b b4b8dc6e
path | 4 2 => df23aa49 1e51411e
path | 4 3 => 1d7d8539 1e51411e
path | 8 0 => 6cbe30c8 b4b8dc6e 8375c2a4
path | 8 1 => 000c835b b4b8dc6e 8375c2a4
path | 8 2 => df23aa49 1e51411e 8375c2a4
path | 8 3 => 1d7d8539 1e51411e 8375c2a4
path | 8 4 => 576780d7 32823138 e1ca8f1c
path | 8 5 => 34b2b4c2 32823138 e1ca8f1c
path | 8 6 => 30279e8c 9f325325 e1ca8f1c
path | 8 7 => 5fef95d9 9f325325 e1ca8f1c

# Places past the leaves have no path, and of three leaves the last has none beside it.
path | 1 1 => none
path | 2 2 => none
path | 8 8 => none
path | 3 2 => none

# How many leaves, a place, and what is altered of the claim that the row stands there.
altered | 1 0 nothing => accepted
altered | 1 0 row => refused
altered | 1 0 root => refused
altered | 1 0 index 1 => refused
altered | 1 0 index 18446744073709551615 => refused
altered | 1 0 depth 1 => refused
altered | 1 0 depth 18446744073709551615 => refused
altered | 1 0 longer => refused
altered | 1 0 deeper 1 => refused
altered | 2 1 nothing => accepted
altered | 2 1 row => refused
altered | 2 1 root => refused
altered | 2 1 index 0 => refused
altered | 2 1 index 2 => refused
altered | 2 1 index 3 => refused
altered | 2 1 depth 0 => refused
altered | 2 1 depth 2 => refused
altered | 2 1 depth 64 => refused
altered | 2 1 entry 0 => refused
altered | 2 1 shorter => refused
altered | 2 1 longer => refused
altered | 2 1 deeper 2 => refused
altered | 2 1 node 0 => refused
altered | 8 5 nothing => accepted
altered | 8 5 row => refused
altered | 8 5 root => refused
altered | 8 5 index 4 => refused
altered | 8 5 index 6 => refused
altered | 8 5 index 7 => refused
altered | 8 5 index 1 => refused
altered | 8 5 index 2 => refused
altered | 8 5 index 13 => refused
altered | 8 5 index 9223372036854775813 => refused
altered | 8 5 depth 2 => refused
altered | 8 5 depth 4 => refused
altered | 8 5 entry 0 => refused
altered | 8 5 entry 1 => refused
altered | 8 5 entry 2 => refused
altered | 8 5 shorter => refused
altered | 8 5 longer => refused
altered | 8 5 deeper 4 => refused
altered | 8 5 exchanged => refused
altered | 8 5 node 2 => refused
altered | 8 2 nothing => accepted
altered | 8 2 index 3 => refused
altered | 8 2 index 1 => refused
altered | 8 2 index 10 => refused
altered | 8 2 exchanged => refused
altered | 8 2 node 2 => refused
altered | 16 12 nothing => accepted
altered | 16 12 node 3 => refused

# What spells a root or not. Answered are its first bytes, and whether it is written the same way.
json | "a94b4fe4b79e2f7254de09d24255b17837de9fbc890e8d2570c84383454a4ccf" => a94b4fe4 same
json | "000c835b247f77f7f1a2ade1f76cd63e3760a4b5407fb46a7969c55413496358" => 000c835b same
json | "A94B4FE4B79E2F7254DE09D24255B17837DE9FBC890E8D2570C84383454A4CCF" => a94b4fe4 other
json | "A94B4fE4b79e2f7254De09d24255b17837de9fbC890e8D2570c84383454a4ccF" => a94b4fe4 other
json | "\u006194b4fe4b79e2f7254de09d24255b17837de9fbc890e8d2570c84383454a4ccf" => a94b4fe4 same
json | "ffffffffffffffffffffffffffffffffffffffffffffffffffffffffffffffff" => ffffffff same
json | "a94b4fe4b79e2f7254de09d24255b17837de9fbc890e8d2570c84383454a4cc" => refused
json | "a94b4fe4b79e2f7254de09d24255b17837de9fbc890e8d2570c84383454a4ccf0" => refused
json | "a94b4fe4b79e2f7254de09d24255b17837de9fbc890e8d2570c84383454a4c" => refused
json | "a94b4fe4b79e2f7254de09d24255b17837de9fbc890e8d2570c84383454a4ccf00" => refused
json | "" => refused
json | "a94b4fe4b79e2f7254de09d24255b17837de9fbc890e8d2570c84383454a4ccg" => refused
json | "a94b4fe4b79e2f7254de09d24255b17837de9fbc890e8d2570c84383454a4cc " => refused
json | " a94b4fe4b79e2f7254de09d24255b17837de9fbc890e8d2570c84383454a4cc" => refused
json | "0xa94b4fe4b79e2f7254de09d24255b17837de9fbc890e8d2570c84383454a4c" => refused
json | "a94b4fe4b79e2f7254de09d24255b17837de9fbc890e8d2570c84383454a4cé" => refused
json | "+a94b4fe4b79e2f7254de09d24255b17837de9fbc890e8d2570c84383454a4cc" => refused
json | 1234 => refused
json | 0 => refused
json | null => refused
json | true => refused
json | [] => refused
json | ["a94b4fe4b79e2f7254de09d24255b17837de9fbc890e8d2570c84383454a4ccf"] => refused
json | {} => refused
"#;

/// A claim that a row stands at a place of the tree of a depth that has a root.
#[derive(Drop)]
struct Claim {
    root: [u8; 32],
    depth: usize,
    index: usize,
    row: Vec<u8>,
    path: Vec<[u8; 32]>,
}

/// The text of a row.
fn row_at(alloc: Global, index: usize) -> Result<Vec<u8>, Fail> {
    Ok(format!(in alloc; "row {index}")?.into_bytes())
}

/// The depth of the tree with a number of leaves.
fn depth_of(leaves: usize) -> usize {
    leaves.checked_ilog2().unwrap_or(0) as usize
}

/// The layers of the tree with a number of leaves.
fn layers_of<H: TreeHash>(alloc: Global, count: usize) -> Result<Vec<Vec<[u8; 32]>>, Fail> {
    let mut rows = Vec::new(alloc);
    for index in 0..count {
        rows.push(row_at(alloc, index)?)?;
    }
    let digests = leaves::<H>(alloc, &rows)?;
    Ok(tree_layers::<H>(alloc, digests, depth_of(count))?)
}

/// The true claim of a leaf.
fn claim_of<H: TreeHash>(alloc: Global, leaves: usize, index: usize) -> Result<Claim, Fail> {
    let layers = layers_of::<H>(alloc, leaves)?;
    Ok(Claim {
        root: root_in(&layers).ok_or("no root")?,
        depth: depth_of(leaves),
        index,
        row: row_at(alloc, index)?,
        path: path_in(alloc, &layers, index)?.ok_or("no path")?,
    })
}

/// The bytes of two digests, one after the other.
fn both(alloc: Global, left: &[u8; 32], right: &[u8; 32]) -> Result<Vec<u8>, Fail> {
    let mut row = Vec::new(alloc);
    row.extend_from_slice(left)?;
    row.extend_from_slice(right)?;
    Ok(row)
}

/// The claim whose row is the two digests below the leaf's parent.
fn parent_of<H: TreeHash>(alloc: Global, claim: Claim) -> Result<Claim, Fail> {
    let below = H::leaf(&claim.row);
    let beside = *claim.path.first().ok_or("no parent")?;
    let row = if claim.index % 2 == 0 {
        both(alloc, &below, &beside)?
    } else {
        both(alloc, &beside, &below)?
    };
    let mut path = Vec::new(alloc);
    path.extend_from_slice(claim.path.get(1..).ok_or("no parent")?)?;
    Ok(Claim {
        root: claim.root,
        depth: claim.depth,
        index: claim.index / 2,
        row,
        path,
    })
}

/// The claim with its path altered.
fn with_path(claim: Claim, change: &str, number: usize) -> Result<Claim, Fail> {
    let mut altered = claim;
    match change {
        "entry" => {
            let digest = altered.path.get_mut(number).ok_or("no such entry")?;
            digest[0] ^= 1;
        }
        "shorter" => {
            altered.path.pop().ok_or("no entry")?;
        }
        "longer" => altered.path.push(altered.root)?,
        "exchanged" => {
            if altered.path.len() < 2 {
                return Err(Fail::new("no two entries"));
            }
            altered.path.swap(0, 1);
        }
        _ => return Err(Fail::new("no such change")),
    }
    Ok(altered)
}

/// The claim with one thing altered.
fn with_change<H: TreeHash>(
    alloc: Global,
    claim: Claim,
    change: &str,
    number: usize,
) -> Result<Claim, Fail> {
    let mut altered = claim;
    match change {
        "nothing" => {}
        "row" => altered.row.push(b'0')?,
        "root" => altered.root[0] ^= 1,
        "index" => altered.index = number,
        "depth" => altered.depth = number,
        "deeper" => {
            altered.path.push(altered.root)?;
            altered.depth = number;
        }
        "node" => {
            altered = parent_of::<H>(alloc, altered)?;
            altered.depth = number;
        }
        _ => return with_path(altered, change, number),
    }
    Ok(altered)
}

/// The altered claim at its lane, and else the true one.
fn claim_at<'a>(altered: &'a Claim, truth: &'a Claim, is_altered: bool) -> &'a Claim {
    if is_altered { altered } else { truth }
}

/// Whether the altered claim and seven times the true one are accepted at once, by the altered
/// one's root and depth.
fn lead_beside<'a, H: TreeHash>(
    alloc: Global,
    altered: &'a Claim,
    truth: &'a Claim,
    lane: usize,
) -> Result<bool, Fail> {
    let mut rows = Vec::new(alloc);
    let mut indices = [0; 8];
    let mut paths: [&[[u8; 32]]; 8] = [&truth.path; 8];
    for i in 0..8 {
        let claim = claim_at(altered, truth, i == lane);
        rows.push(claim.row.clone()?)?;
        indices[i] = claim.index;
        paths[i] = &claim.path;
    }
    if rows.len() < 8 {
        return Err(Fail::new("fewer than eight rows"));
    }
    Ok(eight_lead::<H>(&altered.root, altered.depth, &indices, &rows, &paths))
}

/// Whether the altered claim is accepted, alone and as each of eight.
fn judged<H: TreeHash>(
    alloc: Global,
    leaves: usize,
    index: usize,
    change: &str,
) -> Result<String, Fail> {
    let (change, number) = change.split_once(' ').unwrap_or((change, "0"));
    let claim = claim_of::<H>(alloc, leaves, index)?;
    let altered = with_change::<H>(alloc, claim, change, number.parse::<usize>()?)?;
    let accepted = is_path_to::<H>(
        &altered.root,
        altered.depth,
        altered.index,
        &altered.row,
        &altered.path,
    );
    let truth = claim_of::<H>(alloc, leaves, 0)?;
    for lane in 0..8 {
        if lead_beside::<H>(alloc, &altered, &truth, lane)? != accepted {
            return Err(Fail::new("eight at once are judged otherwise"));
        }
    }
    Ok(String::from_str(alloc, if accepted { "accepted" } else { "refused" })?)
}

/// The first bytes of a path's digests.
fn shown(alloc: Global, path: &[[u8; 32]]) -> Result<String, Fail> {
    let mut text = String::new(alloc);
    for digest in path {
        if !text.is_empty() {
            text.push(' ')?;
        }
        text.push_str(&hex::encode(alloc, &digest[..4])?)?;
    }
    if text.is_empty() {
        text.push_str("no digests")?;
    }
    Ok(text)
}

/// A JSON value's text.
fn text_of(alloc: Global, value: &Value) -> Result<String, Fail> {
    Ok(String::from_str(alloc, value.as_str().ok_or("no text")?)?)
}

/// The root that JSON spells, by its first bytes, and whether it is written the same way.
fn spelled(alloc: Global, json: &str) -> Result<String, Fail> {
    let value = value_from_bytes(alloc, json.as_bytes())
        .ok()
        .ok_or("no JSON")?;
    match Root::from_json(alloc, &value) {
        Ok(root) => {
            let written = text_of(alloc, &root.to_json(alloc)?)?;
            let start = hex::encode(alloc, &root.bytes()[..4])?;
            let way = if value.as_str() == Some(written.as_str()) {
                "same"
            } else {
                "other"
            };
            Ok(format!(in alloc; "{start} {way}")?)
        }
        Err(JsonFault::Invalid) => Ok(String::from_str(alloc, "refused")?),
        Err(JsonFault::OutOfMemory) => Err(Fail::new("out of memory")),
    }
}

/// The answer to a case.
fn answer<H: TreeHash>(alloc: Global, case: &str) -> Result<String, Fail> {
    let (table, text) = case.split_once(" | ").ok_or("no bar")?;
    if table == "json" {
        return spelled(alloc, text);
    }
    let (leaves, rest) = text.split_once(' ').unwrap_or((text, ""));
    let leaves = leaves.parse::<usize>()?;
    if table == "root" {
        let root = Root::new(root_in(&layers_of::<H>(alloc, leaves)?).ok_or("no root")?);
        return text_of(alloc, &root.to_json(alloc)?);
    }
    let (index, change) = rest.split_once(' ').unwrap_or((rest, ""));
    let index = index.parse::<usize>()?;
    if table == "altered" {
        return judged::<H>(alloc, leaves, index, change);
    }
    match path_in(alloc, &layers_of::<H>(alloc, leaves)?, index)? {
        Some(path) => shown(alloc, &path),
        None => Ok(String::from_str(alloc, "none")?),
    }
}

#[test]
fn cases_are_answered(rt: HostRuntime) -> Result<(), Fail> {
    let mut count = 0usize;
    for case in CASES.lines() {
        if !case.is_empty() && !case.starts_with('#') {
            let (input, expected) = case.split_once(" => ").ok_or("a case without an answer")?;
            let actual = answer::<Sha256Tree>(rt.alloc(), input)?;
            assert_eq!(rt; actual.as_str(), expected, "{input}");
            count = count.saturating_add(1);
        }
    }
    assert_eq!(rt; count, 101);
    Ok(())
}
