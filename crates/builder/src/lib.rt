// Books and solution records, written part by part into a lent buffer, for the programs that try other crates. Each
// function writes one part at `at` and returns where the next one goes. What would fall past the end is dropped, and
// the next place is then the end.
#![tactic(auto)]

ghost use Rattle.std.specs.Prelude.{◌≡◌};
ghost use Rattle.records.specs.Octets.{record_octets};
ghost use Rattle.builder.specs.Layout.{appended, sizes_octets, head_octets, entry_octets, peer_octets};

use spec::{AsEntry, Head, PeerEntry, Sizes, Solution};

// ---- the parts of a book, in the order in which they stand in it

pub fn put_sizes(out: &mut [u8], at: usize, s: Sizes) -> usize
    ensures { (out.new, result) ≡ appended out.old at (sizes_octets s) }
{
    let others = append(out, at, &s.cores.to_be_bytes());
    let bodies = append(out, others, &s.others.to_be_bytes());
    append(out, bodies, &s.bodies.to_be_bytes())
}

pub fn put_head(out: &mut [u8], at: usize, h: Head) -> usize
    ensures { (out.new, result) ≡ appended out.old at (head_octets h) }
{
    let id = append(out, at, &h.timestamp.to_be_bytes());
    let entries = append(out, id, &h.id.to_be_bytes());
    let body = append(out, entries, &h.entries.to_be_bytes());
    append(out, body, &h.body.to_be_bytes())
}

// An entry without its peers.
pub fn put_entry(out: &mut [u8], at: usize, e: AsEntry) -> usize
    ensures { (out.new, result) ≡ appended out.old at (entry_octets e) }
{
    let hop = e.hop;
    let mtu = append(out, at, &e.local.0.to_be_bytes());
    let ingress_mtu = append(out, mtu, &e.mtu.to_be_bytes());
    let ingress = append(out, ingress_mtu, &e.ingress_mtu.to_be_bytes());
    let egress = append(out, ingress, &hop.ingress.to_be_bytes());
    let units = append(out, egress, &hop.egress.to_be_bytes());
    let key = append(out, units, &[hop.units]);
    let peers = append(out, key, &hop.mac);
    append(out, peers, &[e.peers])
}

pub fn put_peer(out: &mut [u8], at: usize, p: PeerEntry) -> usize
    ensures { (out.new, result) ≡ appended out.old at (peer_octets p) }
{
    let hop = p.hop;
    let interface = append(out, at, &p.peer.0.to_be_bytes());
    let mtu = append(out, interface, &p.interface.to_be_bytes());
    let units = append(out, mtu, &p.mtu.to_be_bytes());
    let ingress = append(out, units, &[hop.units]);
    let egress = append(out, ingress, &hop.ingress.to_be_bytes());
    let key = append(out, egress, &hop.egress.to_be_bytes());
    append(out, key, &hop.mac)
}

// ---- a solution record

pub fn put_solution(out: &mut [u8], at: usize, s: Solution) -> usize
    ensures { (out.new, result) ≡ appended out.old at (record_octets s) }
{
    append(out, at, &records::solution_octets(s))
}

// ---- bytes

// The bytes of a part, or as many as fit.
fn append(out: &mut [u8], at: usize, xs: &[u8]) -> usize
    ensures { (out.new, result) ≡ appended out.old at xs.now }
{
    output::copy(xs, 0, xs.len(), out, at);
    at.saturating_add(xs.len()).min(out.len())
}
