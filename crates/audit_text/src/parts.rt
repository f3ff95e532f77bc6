//! What the numbers of a line are from a place on: a missing number is 0, and one that is too large is cut.
ghost use Rattle.std.specs.Prelude.{◌≡◌, ◌≤◌};
ghost use Rattle.audit_text.specs.Reading.{long_at, short_at, kind_at, tenancy_at, state_at, piece_at, record_at, ask_at, want_at, span_at, tag_at, part_at, one_less_at, some_at};

use tiger_base::{
    Ask, DiskNo, FileNo, Instance, Kind, PieceState, Rec, SlotNo, Span, State, Tag, Tenancy, Want,
};

/// The number at a place; 0 if there is none.
pub fn long_at(ns: &[u64], i: usize) -> u64
    ensures { result ≡ long_at ns.now i }
{
    match ns.get(i) {
        Some(n) => *n,
        None => 0,
    }
}

/// The low 32 bits of the number at a place; 0 if there is none.
pub fn short_at(ns: &[u64], i: usize) -> u32
    ensures { result ≡ short_at ns.now i }
{
    (long_at(ns, i) % 4294967296) as u32
}

/// The kind of a record: a cub's own if the number at the place is 0, and else a backup.
pub fn kind_at(ns: &[u64], i: usize) -> Kind
    ensures { result ≡ kind_at ns.now i }
{
    if long_at(ns, i) == 0 {
        Kind::Own
    } else {
        Kind::Backup
    }
}

/// The tenancy of five numbers: the instance, the file, the slot, and the first and the last visit.
pub fn tenancy_at(ns: &[u64], i: usize) -> Tenancy
    requires { i ≤ 100 }
    ensures { result ≡ tenancy_at ns.now i }
{
    Tenancy {
        instance: Instance(short_at(ns, i)),
        file: FileNo(short_at(ns, i + 1)),
        slot: SlotNo(short_at(ns, i + 2)),
        first: long_at(ns, i + 3),
        last: long_at(ns, i + 4),
    }
}

/// The viewer state of six numbers: its tenancy's five, and the visit.
pub fn state_at(ns: &[u64], i: usize) -> State
    requires { i ≤ 90 }
    ensures { result ≡ state_at ns.now i }
{
    State {
        tenancy: tenancy_at(ns, i),
        visit: long_at(ns, i + 5),
    }
}

/// The mirror state of seven numbers: its tenancy's five, the visit, and the piece.
pub fn piece_at(ns: &[u64], i: usize) -> PieceState
    requires { i ≤ 90 }
    ensures { result ≡ piece_at ns.now i }
{
    PieceState {
        tenancy: tenancy_at(ns, i),
        visit: long_at(ns, i + 5),
        piece: short_at(ns, i + 6),
    }
}

/// The record of seven numbers: its tenancy's five, the visit, and the kind.
pub fn record_at(ns: &[u64], i: usize) -> Rec
    requires { i ≤ 90 }
    ensures { result ≡ record_at ns.now i }
{
    Rec {
        tenancy: tenancy_at(ns, i),
        visit: long_at(ns, i + 5),
        kind: kind_at(ns, i + 6),
    }
}

/// The request of four numbers: the instance, the file, how many blocks, and the first disk.
pub fn ask_at(ns: &[u64], i: usize) -> Ask
    requires { i ≤ 100 }
    ensures { result ≡ ask_at ns.now i }
{
    Ask {
        instance: Instance(short_at(ns, i)),
        file: FileNo(short_at(ns, i + 1)),
        count: long_at(ns, i + 2),
        disk: DiskNo(short_at(ns, i + 3)),
    }
}

/// What a disk is asked for, of six numbers: instance, slot, visit, file, block, and piece.
pub fn want_at(ns: &[u64], i: usize) -> Want
    requires { i ≤ 100 }
    ensures { result ≡ want_at ns.now i }
{
    Want {
        visit: long_at(ns, i + 2),
        block: long_at(ns, i + 4),
        instance: Instance(short_at(ns, i)),
        slot: SlotNo(short_at(ns, i + 1)),
        file: FileNo(short_at(ns, i + 3)),
        piece: short_at(ns, i + 5),
    }
}

/// The span of three numbers: the file, the byte at which it begins, and its length in bytes.
pub fn span_at(ns: &[u64], i: usize) -> Span
    requires { i ≤ 100 }
    ensures { result ≡ span_at ns.now i }
{
    Span {
        file: FileNo(short_at(ns, i)),
        from: long_at(ns, i + 1),
        len: long_at(ns, i + 2),
    }
}

/// The slot and the visit of a number that is not 0 and the two behind it; none if it is 0.
pub fn tag_at(ns: &[u64], i: usize) -> Option<Tag>
    requires { i ≤ 100 }
    ensures { result ≡ tag_at ns.now i }
{
    if long_at(ns, i) == 0 {
        return None;
    }
    Some(Tag {
        slot: SlotNo(short_at(ns, i + 1)),
        visit: long_at(ns, i + 2),
    })
}

/// The span of the three numbers behind one that is not 0; none if it is 0.
pub fn part_at(ns: &[u64], i: usize) -> Option<Span>
    requires { i ≤ 90 }
    ensures { result ≡ part_at ns.now i }
{
    if long_at(ns, i) == 0 {
        return None;
    }
    Some(span_at(ns, i + 1))
}

/// The number that one more is told of, if that is not 0.
pub fn one_less_at(ns: &[u64], i: usize) -> Option<u64>
    ensures { result ≡ one_less_at ns.now i }
{
    let n = long_at(ns, i);
    if n == 0 {
        return None;
    }
    Some(n - 1)
}

/// The number that is told, if it is not 0.
pub fn some_at(ns: &[u64], i: usize) -> Option<u64>
    ensures { result ≡ some_at ns.now i }
{
    let n = long_at(ns, i);
    if n == 0 {
        return None;
    }
    Some(n)
}
