// Sets of vertices, as words.

pub(crate) fn has(set: u64, v: u64) -> bool {
    set >> v % 64 & 1 == 1
}

pub(crate) fn with(set: u64, v: u64) -> u64 {
    set | 1 << v % 64
}

// The vertices below n, which is below 64.
pub(crate) fn below(n: u64) -> u64 {
    !(!0 << n % 64)
}
