// What is read of the entries and peers of a book at their offsets.
ghost use Rattle.std.specs.Prelude.{◌≡◌, ◌+◌, ◌*◌, ◌≤◌};
ghost use Rattle.spec.specs.Limits.{entry_size, peer_size};
ghost use Rattle.spec.specs.Book.{isd_asn_at, peer_count};

use spec::{AsEntry, IsdAsn, PeerEntry};

const PEER_COUNT: u8 = AsEntry::PEER_COUNT as u8;

// The AS of the entry or peer at an offset.
pub fn isd_asn(book: &[u8], at: usize) -> IsdAsn
    ensures { result ≡ isd_asn_at book.now at }
{
    IsdAsn(octets::be64(book, at))
}

// How many peers the entry at an offset has.
fn peer_count(book: &[u8], at: usize) -> u8
    ensures { result ≡ peer_count book.now at }
{
    octets::byte_past(book, at, PEER_COUNT)
}

// The bytes of the entry at an offset with its peers.
pub fn entry_size(book: &[u8], at: usize) -> usize
    ensures { (result ≡ entry_size + peer_size * peer_count book.now at) × (result ≤ entry_size + peer_size * 255) }
{
    AsEntry::SIZE + PeerEntry::SIZE * usize::from(peer_count(book, at))
}
