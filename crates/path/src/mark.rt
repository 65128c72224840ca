// A short mark of a list of interfaces: equal lists have equal marks, and unequal ones hardly ever.
ghost use Rattle.std.specs.Prelude.{◌≡◌, ◌*◌, ◌≤◌, ◌<◌, length};
ghost use Rattle.path.specs.Marking.{prime, weighed, turned, mark_of, both_marks};
ghost use Rattle.path.specs.Slots.{shown_at, shown_in};

use crate::shown::Interfaces;
use crate::within;
use spec::PathInterface;

const PRIME: u64 = (1 << 31) - 1;

// How many solutions may all have one mark: to compare each with each takes a small part of the time that a call may take.
const FEW: usize = 128;

// What the parts of an interface are multiplied by, and a mark before the next interface. Any numbers do.
#[derive(Clone, Copy)]
pub(crate) struct Keys {
    pub isd: u32,
    pub high: u32,
    pub low: u32,
    pub id: u32,
    pub turn: u32,
}

// For few solutions: the first words of the digest of no bytes.
fn fixed_keys() -> Keys {
    Keys {
        isd: 0xe3b0c442,
        high: 0x98fc1c14,
        low: 0x9afbf4c8,
        id: 0x996fb924,
        turn: 0x27ae41e4,
    }
}

fn keys_in(s: &[u8]) -> Keys
    requires { 20 ≤ length s.now }
{
    Keys {
        isd: within::read32(s, 0),
        high: within::read32(s, 4),
        low: within::read32(s, 8),
        id: within::read32(s, 12),
        turn: within::read32(s, 16),
    }
}

// Two sets of keys, each with a mark of its own: see docs/DECISIONS.md.
#[derive(Clone, Copy)]
pub(crate) struct Pair {
    pub first: Keys,
    pub second: Keys,
}

// The keys for n solutions. For many they come of the book's digest, so that nobody can issue segments whose routes all have one mark.
pub(crate) fn pair_for(book: &[u8], n: usize) -> Pair {
    if n <= FEW {
        let keys = fixed_keys();
        return Pair {
            first: keys,
            second: keys,
        };
    }
    let digest = sha256::sha256(book);
    let first = keys_in(&digest);
    let second = keys_in(&sha256::sha256(&digest));
    Pair { first, second }
}

// A part of an interface, or a mark, times its key.
fn times(x: u64, key: u32) -> u64
    requires { x ≤ prime }
    ensures { (result ≡ x * key) × (result ≤ x * 4294967295) }
{
    x * u64::from(key)
}

// ISD, the two halves of the AS number, and the interface's id.
fn weigh(keys: Keys, local: u64, id: u16) -> u64
    ensures { result ≡ weighed keys local id }
{
    let isd = times(local / 281474976710656, keys.isd);
    let high = times(local / 16777216 % 16777216, keys.high);
    let low = times(local % 16777216, keys.low);
    let id = times(u64::from(id), keys.id);
    isd + high + low + id
}

// The mark with the interface at index k.
fn turn(keys: Keys, mark: u64, route: &Interfaces, k: usize) -> u64
    requires { (mark < prime) × (k < route.now.count) }
    ensures { (result ≡ turned keys mark (shown_at route.now.ases.now route.now.ids.now k)) × (result < prime) }
{
    let local = within::read64(route.ases, PathInterface::AS * k);
    let id = within::read16(route.ids, PathInterface::ID * k);
    (times(mark, keys.turn) + weigh(keys, local, id) % PRIME) % PRIME
}

// The mark of a route by one set of keys.
fn mark_of(keys: Keys, route: &Interfaces) -> u64
    ensures { (result ≡ mark_of keys (shown_in route.now.ases.now route.now.ids.now route.now.count)) × (result < prime) }
{
    let mut mark: u64 = 0;
    for k in 0..route.count {
        mark = turn(keys, mark, route, k);
    }
    mark
}

// By both, in sixteen bits: the low ones of their product.
pub(crate) fn both_marks(keys: Pair, route: &Interfaces) -> u16
    ensures { result ≡ both_marks keys (shown_in route.now.ases.now route.now.ids.now route.now.count) }
{
    let first = mark_of(keys.first, route);
    let second = mark_of(keys.second, route);
    (first * second % PRIME % 65536) as u16
}
