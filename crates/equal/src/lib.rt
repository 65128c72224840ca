// Equal segments: of the same kind, timestamp, id and body. Every function answers for any bytes: what lies past the
// book's end reads as 0.
#![tactic(auto)]

ghost use Rattle.std.specs.Prelude.{◌≡◌, ltb};
ghost use Rattle.spec.specs.Book.{cores, id_at, segment_at};
ghost use Rattle.spec.specs.Edges.{same_bool, same_segment};
ghost use Rattle.equal.specs.Same.{same_parts};

// The segments at j and k are of the same kind: cores come first.
fn same_kind(book: &[u8], j: u8, k: u8) -> bool
    ensures { result ≡ same_bool (ltb j (cores book.now)) (ltb k (cores book.now)) }
{
    let cores = segment::sizes(book).cores;
    (u16::from(j) < cores) == (u16::from(k) < cores)
}

// The m bytes at i and the n at j are the same; of either only those that lie in the book.
fn same_parts(book: &[u8], i: usize, m: usize, j: usize, n: usize) -> bool
    ensures { result ≡ same_parts book.now i m j n }
{
    let size = book.len();
    let p = i.min(size);
    let q = j.min(size);
    let u = m.min(size - p);
    let v = n.min(size - q);
    book[p..p + u] == book[q..q + v]
}

// The segments at j and k, which have the same id, are equal.
fn same_rest(book: &[u8], j: u8, k: u8) -> bool
    requires { id_at book.now j ≡ id_at book.now k }
    ensures { result ≡ same_segment (segment_at book.now j) (segment_at book.now k) }
{
    if segment::timestamp(book, j) != segment::timestamp(book, k) {
        return false;
    }
    if !same_kind(book, j, k) {
        return false;
    }
    let m = usize::from(segment::body_length(book, j));
    let n = usize::from(segment::body_length(book, k));
    let at_j = segment::body_offset(book, j);
    let at_k = segment::body_offset(book, k);
    same_parts(book, at_j, m, at_k, n)
}

pub fn same_segment(book: &[u8], j: u8, k: u8) -> bool
    ensures { result ≡ same_segment (segment_at book.now j) (segment_at book.now k) }
{
    if segment::id(book, j) != segment::id(book, k) {
        return false;
    }
    same_rest(book, j, k)
}
