//! Keys that events reach: the bytes of nodes, and the paths of leaf calls.

ghost use Rattle.std.specs.Prelude.{◌≡◌, ◌+◌, ◌-◌, ◌*◌, ◌%◌, ◌<◌, ◌^◌};
ghost use Rattle.sq_clashes.specs.Keys as spec;

// As many nodes have keys of their own, as many bytes each.
const NODES: u32 = 1 << 30;

const BYTES: u64 = 1 << 32;

// The first key behind those of bytes.
const PATHS: u64 = 1 << 63;

// What a path's number is made by: so few paths have one number that nothing is lost by it.
const FACTOR: u64 = 8_388_593;

const MODULUS: u64 = 1_099_511_627_689;

/// The key of a node's first byte. The others follow it.
pub(crate) fn node_key(node: u32) -> u64
    ensures is { result ≡ spec.node_key node }
    ensures small { result < 2 ^ 62 }
{
    u64::from(node % NODES) * BYTES
}

// The number of a path with one number more.
fn next_number(number: u64, next: u32) -> u64
    requires { number < 2 ^ 40 }
    ensures is { result ≡ (number * 8388593 + next + 1) % 1099511627689 }
    ensures small { result < 2 ^ 40 }
{
    (number * FACTOR + u64::from(next) + 1) % MODULUS
}

#[tactic(auto, unfolding(crate::specs::Keys::path_number))]
fn path_number(path: &[u32]) -> u64
    ensures is { result ≡ spec.path_number 0 path.now }
    ensures small { result < 2 ^ 40 }
{
    let mut number = 0;
    for next in path {
        number = next_number(number, *next);
    }
    number
}

/// The key of a path.
#[tactic(auto, unfolding(crate::specs::Keys::path_key))]
pub(crate) fn path_key(path: &[u32]) -> u64
    ensures is { result ≡ spec.path_key path.now }
    ensures small { result < 2 ^ 64 - 1 }
{
    PATHS + path_number(path)
}
