// The table of gains: one entry a code, 0 where it is not open. It is an array, as C has it in the settings.
ghost use Rattle.std.specs.Prelude.{◌≡◌, ◌<◌, ◌≤◌, set};
ghost use Rattle.codes.specs.Range.{any};
ghost use Rattle.modulation.specs.Nodes.{node as node_of, open_at};
ghost use Rattle.tables.specs.OpenCodes.{clashes};

use codes::tree;
use codes::tree::Code;

// Where the gain of code (q, k) stands.
fn node(q: u32, k: u32) -> usize
    requires { (k < q) × (q ≤ 16) }
    ensures { (result ≡ node_of q k) × (result < 31) }
{
    (q - 1 + k) as usize
}

// Whether a code is open.
pub fn is_open(gains: &[u16; 31], code: Code) -> bool
    ensures { result ≡ open_at gains.now code.q code.k }
{
    gains[node(code.q, code.k)] != 0
}

// The gains once a code has this one, which is 0 where it is closed.
pub fn with_gain(mut gains: [u16; 31], code: Code, gain: u16) -> [u16; 31]
    ensures { result ≡ set gains (node_of code.q code.k) gain }
{
    gains[node(code.q, code.k)] = gain;
    gains
}

// Whether code (q2, k2) is open and related to (q, k).
fn clashes(gains: &[u16; 31], q: u32, k: u32, q2: u32, k2: u32) -> bool
    requires { (k2 < q2) × (q2 ≤ 16) }
    ensures { result ≡ clashes gains.now q k q2 k2 }
{
    gains[node(q2, k2)] != 0 && tree::is_related(q2, k2, q, k)
}

// Whether an open code of factor q2 is related to (q, k), which may be any numbers. All are looked at, which is faster than stopping at the first.
pub fn any_clash(gains: &[u16; 31], q: u32, k: u32, q2: u32) -> bool
    requires { q2 ≤ 16 }
    ensures { result ≡ any q2 (clashes gains.now q k q2) }
{
    let mut found = false;
    for k2 in 0..q2 {
        found |= clashes(gains, q, k, q2, k2);
    }
    found
}
