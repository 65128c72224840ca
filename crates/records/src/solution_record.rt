// The record of a solution.
ghost use Rattle.std.specs.Prelude.{◌≡◌, ◌≤◌};
ghost use Rattle.spec.specs.Records.{bit, record_edge, solution_in};
ghost use Rattle.records.specs.Octets.{record_octets};

use spec::{Solution, SolutionEdge};

pub fn cost(given: &[u8]) -> u16
    ensures { result ≡ (solution_in given.now).cost }
{
    octets::be16(given, 0)
}

pub fn edge_count(given: &[u8]) -> u8
    ensures { result ≡ (solution_in given.now).count }
{
    octets::byte(given, Solution::COUNT)
}

// Edge k.
pub fn edge(given: &[u8], k: u8) -> SolutionEdge
    ensures { result ≡ record_edge given.now k }
{
    let at = Solution::HEAD + SolutionEdge::SIZE * usize::from(k);
    let direction = octets::byte(given, at + SolutionEdge::DIRECTION);
    SolutionEdge {
        position: octets::byte(given, at),
        shortcut: octets::byte(given, at + SolutionEdge::SHORTCUT),
        peer: octets::byte(given, at + SolutionEdge::PEER),
        construction: direction == 1,
    }
}

// All that a record says.
pub fn solution(given: &[u8; Solution::SIZE]) -> Solution
    ensures { result ≡ solution_in given.now }
{
    Solution {
        cost: cost(given),
        count: edge_count(given),
        edges: [edge(given, 0), edge(given, 1), edge(given, 2)],
    }
}

// A direction or a flag as a number.
pub fn bit(b: bool) -> u8
    ensures { (result ≡ bit b) × (result ≤ 1) }
{
    u8::from(b)
}

pub fn solution_octets(s: Solution) -> [u8; Solution::SIZE]
    ensures { result ≡ record_octets s }
{
    // Through `to_be_bytes`, as in `info_octets`, a listing takes 1 % longer.
    let cost = s.cost;
    let [e, f, g] = s.edges;
    [
        (cost / 256) as u8,
        (cost % 256) as u8,
        s.count,
        0,
        e.position,
        e.shortcut,
        e.peer,
        bit(e.construction),
        f.position,
        f.shortcut,
        f.peer,
        bit(f.construction),
        g.position,
        g.shortcut,
        g.peer,
        bit(g.construction),
    ]
}
