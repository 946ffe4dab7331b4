//! Trees over leaves whose roots are known independently.

use archive_tree::{AuditPath, TreeHead, TreeStream};
use std::process::Abort;
use std::test::Fail;

// the leaves and the tree heads of Certificate Transparency's own test data
const LEAVES: [&[u8]; 8] = [
    b"",
    b"\x00",
    b"\x10",
    b"\x20\x21",
    b"\x30\x31",
    b"\x40\x41\x42\x43",
    b"\x50\x51\x52\x53\x54\x55\x56\x57",
    b"\x60\x61\x62\x63\x64\x65\x66\x67\x68\x69\x6a\x6b\x6c\x6d\x6e\x6f",
];

const ROOTS: [&str; 9] = [
    "e3b0c44298fc1c149afbf4c8996fb92427ae41e4649b934ca495991b7852b855",
    "6e340b9cffb37a989ca544e6bb780a2c78901d3fb33738768511a30617afa01d",
    "fac54203e7cc696cf0dfcb42c92a1d9dbaf70ad9e621f4bd8d98662f00e3c125",
    "aeb6bcfe274b70a14fb067a5e5578264db0fa9b51af5e0ba159158f329e06e77",
    "d37ee418976dd95753c1c73862b9398fa2a2cf9b4ff0fdfe8b30cd95209614b7",
    "4e3bbb1f7b478dcfe71fb631631519a3bca12c9aefca1612bfce4c13a86264d4",
    "76e67dadbcdf1e10e1b74ddc608abd2f98dfb16fbce75277b5232a127f2087ef",
    "ddb89be403809e325750d3d263cd78929c2942b7942a34b77e122c9594a74c8c",
    "5dc9da79a70659a9ad559cb701ded9a2ab9d823aad2f4960cfe370eff4604328",
];

fn see_hash(rt: &(impl Abort + AllocGlobal), hash: &[u8], digits: &str) -> Result<(), Fail> {
    assert_eq!(rt; hex::encode(rt.alloc(), hash)?.as_str(), digits);
    Ok(())
}

// the head of a tree over leaves, whose paths are followed
fn head_of(leaves: &[&[u8]], paths: &mut [AuditPath]) -> TreeHead {
    let mut tree = TreeStream::new();
    for leaf in leaves {
        tree.push(leaf, paths);
    }
    tree.finish(paths)
}

#[test]
fn roots_are_those_of_certificate_transparency(rt: HostRuntime) -> Result<(), Fail> {
    for (n, root) in ROOTS.iter().enumerate() {
        let head = head_of(&LEAVES[..n], &mut []);
        assert_eq!(rt; head.size, n as u64);
        see_hash(&rt, &head.hash, root)?;
    }
    Ok(())
}

#[test]
fn a_path_has_the_hashes_beside_its_way(rt: HostRuntime) -> Result<(), Fail> {
    let mut paths = [AuditPath::new(1), AuditPath::new(4)];
    head_of(&LEAVES[..5], &mut paths);
    let beside_second = [
        ROOTS[1],
        "5f083f0a1a33ca076a95279832580db3e0ef4584bdff1f54c8a360f50de3031e",
        "bc1a0643b12e4d2d7c77918f44e0f4f79a838b6cf9ec5b5c283e1f4d88599e6b",
    ];
    let beside_last = [ROOTS[4]];
    for (path, beside) in paths
        .iter()
        .zip([beside_second.as_slice(), beside_last.as_slice()])
    {
        let hashes = path.hashes.as_slice();
        assert_eq!(rt; hashes.len(), beside.len());
        for (hash, digits) in hashes.iter().zip(beside) {
            see_hash(&rt, hash, digits)?;
        }
    }
    Ok(())
}
