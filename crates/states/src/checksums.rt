// Checksums: over a state with its storage and output, and over what the steps answer and report.
use crate::STATE;
use cases::{fold, fold_all};
use machine::{Report, Store};

// A state's bytes with its storage and output folded.
pub fn left(state: &[u8; STATE], storage: &[u64], output: &[u8]) -> u64 {
    fold_all(fold_all(fold_all(1, state), storage), output)
}

// A store folded.
fn store(before: u64, s: Store) -> u64 {
    let a = fold(before, s.address);
    let b = fold(a, u64::from(s.left));
    let c = fold(b, u64::from(s.right));
    fold(c, s.bits)
}

// A report folded.
pub fn report(before: u64, r: Report) -> u64 {
    let a = fold(before, r.freed);
    let b = fold(a, r.delivered);
    let c = fold(b, r.size);
    let d = fold(c, r.copied);
    store(store(d, r.first), r.second)
}
