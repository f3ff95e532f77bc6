//! Reads the line of an entry, as nearly all lines are, from its front on, with no room for its numbers.
ghost use Rattle.std.specs.Prelude.{◌≡◌, ◌<◌, ◌≤◌, ◌+◌, ◌++◌, [], ◌∷◌, IfSome};
ghost use Rattle.std.specs.Fmt.{decimal};
ghost use Rattle.audit_text.specs.declared.item.Item.{Item};
ghost use Rattle.audit_text.specs.declared.item.Item.TheVariants as item;
ghost use Rattle.audit_text.specs.declared.item.Word.TheVariants as word;
ghost use Rattle.audit_text.specs.Fields.{flag_number, kind_number, tenancy_fields, record_fields, ask_fields, want_fields, span_fields, tag_fields, part_fields, note_fields, what_fields, what_word};
ghost use Rattle.audit_text.specs.Fits.{ItemFits};
ghost use Rattle.audit_text.specs.Lines.{spaced, line_of};
ghost use Rattle.audit_text.specs.Words.{letters};

use crate::item::Word;
use crate::words::word_in;
use node_kit::{Entry, What};
use tiger_base::{
    Ask, CubNo, DiskNo, FileNo, Instance, Kind, LinkNo, Note, PieceState, Rec, SlotNo, Span, Stamp,
    State, Tag, Tenancy, Want,
};

/// The least number to which no digit is added here.
const LONG: u64 = 1000000000000000000;

/// The greatest number of four bytes.
const LARGEST_SHORT: u64 = 4294967295;

/// A digit, and what stands behind it.
fn take_digit(bytes: &[u8]) -> Option<(u64, &[u8])>
    ensures { IfSome result (λ x. (x.0 < 10) × (bytes.now ≡ (48 + x.0) ∷ x.1.now)) }
{
    let (first, rest) = bytes.split_first()?;
    if *first < b'0' || *first > b'9' {
        return None;
    }
    Some(((*first - b'0') as u64, rest))
}

/// A number whose first digit, which is not 0, was read, and what stands behind it.
fn take_digits(first: u64, bytes: &[u8]) -> Option<(u64, &[u8])>
    requires from { 1 ≤ first }
    requires below { first < 10 }
    ensures { IfSome result (λ x. decimal first ++ bytes.now ≡ decimal x.0 ++ x.1.now) }
{
    let mut n = first;
    let mut rest = bytes;
    while let Some((digit, behind)) = take_digit(rest) {
        if n >= LONG {
            return None;
        }
        n = n * 10 + digit;
        rest = behind;
    }
    Some((n, rest))
}

/// A number behind a space, and what stands behind it. None is given of what has a leading zero, and of the largest.
fn take_number(bytes: &[u8]) -> Option<(u64, &[u8])>
    ensures { IfSome result (λ x. bytes.now ≡ spaced (x.0 ∷ []) ++ x.1.now) }
{
    let (space, digits) = bytes.split_first()?;
    if *space != b' ' {
        return None;
    }
    let (first, rest) = take_digit(digits)?;
    if first == 0 {
        return Some((0, rest));
    }
    take_digits(first, rest)
}

fn take_short(bytes: &[u8]) -> Option<(u32, &[u8])>
    ensures { IfSome result (λ x. bytes.now ≡ spaced (x.0 ∷ []) ++ x.1.now) }
{
    let (n, rest) = take_number(bytes)?;
    if n > LARGEST_SHORT {
        return None;
    }
    Some((n as u32, rest))
}

fn take_flag(bytes: &[u8]) -> Option<(bool, &[u8])>
    ensures { IfSome result (λ x. bytes.now ≡ spaced (flag_number x.0 ∷ []) ++ x.1.now) }
{
    let (n, rest) = take_number(bytes)?;
    match n {
        0 => Some((false, rest)),
        1 => Some((true, rest)),
        _ => None,
    }
}

fn take_kind(bytes: &[u8]) -> Option<(Kind, &[u8])>
    ensures { IfSome result (λ x. bytes.now ≡ spaced (kind_number x.0 ∷ []) ++ x.1.now) }
{
    let (n, rest) = take_number(bytes)?;
    match n {
        0 => Some((Kind::Own, rest)),
        1 => Some((Kind::Backup, rest)),
        _ => None,
    }
}

fn take_tenancy(bytes: &[u8]) -> Option<(Tenancy, &[u8])>
    ensures { IfSome result (λ x. bytes.now ≡ spaced (tenancy_fields x.0) ++ x.1.now) }
{
    let (instance, rest) = take_short(bytes)?;
    let (file, rest) = take_short(rest)?;
    let (slot, rest) = take_short(rest)?;
    let (first, rest) = take_number(rest)?;
    let (last, rest) = take_number(rest)?;
    let tenancy = Tenancy {
        instance: Instance(instance),
        file: FileNo(file),
        slot: SlotNo(slot),
        first,
        last,
    };
    Some((tenancy, rest))
}

fn take_record(bytes: &[u8]) -> Option<(Rec, &[u8])>
    ensures { IfSome result (λ x. bytes.now ≡ spaced (record_fields x.0) ++ x.1.now) }
{
    let (tenancy, rest) = take_tenancy(bytes)?;
    let (visit, rest) = take_number(rest)?;
    let (kind, rest) = take_kind(rest)?;
    let record = Rec {
        tenancy,
        visit,
        kind,
    };
    Some((record, rest))
}

fn take_ask(bytes: &[u8]) -> Option<(Ask, &[u8])>
    ensures { IfSome result (λ x. bytes.now ≡ spaced (ask_fields x.0) ++ x.1.now) }
{
    let (instance, rest) = take_short(bytes)?;
    let (file, rest) = take_short(rest)?;
    let (count, rest) = take_number(rest)?;
    let (disk, rest) = take_short(rest)?;
    let ask = Ask {
        instance: Instance(instance),
        file: FileNo(file),
        count,
        disk: DiskNo(disk),
    };
    Some((ask, rest))
}

fn take_want(bytes: &[u8]) -> Option<(Want, &[u8])>
    ensures { IfSome result (λ x. bytes.now ≡ spaced (want_fields x.0) ++ x.1.now) }
{
    let (instance, rest) = take_short(bytes)?;
    let (slot, rest) = take_short(rest)?;
    let (visit, rest) = take_number(rest)?;
    let (file, rest) = take_short(rest)?;
    let (block, rest) = take_number(rest)?;
    let (piece, rest) = take_short(rest)?;
    let want = Want {
        visit,
        block,
        instance: Instance(instance),
        slot: SlotNo(slot),
        file: FileNo(file),
        piece,
    };
    Some((want, rest))
}

fn take_span(bytes: &[u8]) -> Option<(Span, &[u8])>
    ensures { IfSome result (λ x. bytes.now ≡ spaced (span_fields x.0) ++ x.1.now) }
{
    let (file, rest) = take_short(bytes)?;
    let (from, rest) = take_number(rest)?;
    let (len, rest) = take_number(rest)?;
    let span = Span {
        file: FileNo(file),
        from,
        len,
    };
    Some((span, rest))
}

fn take_tag(bytes: &[u8]) -> Option<(Option<Tag>, &[u8])>
    ensures { IfSome result (λ x. bytes.now ≡ spaced (tag_fields x.0) ++ x.1.now) }
{
    let (there, rest) = take_flag(bytes)?;
    if !there {
        return Some((None, rest));
    }
    let (slot, rest) = take_short(rest)?;
    let (visit, rest) = take_number(rest)?;
    let tag = Tag {
        slot: SlotNo(slot),
        visit,
    };
    Some((Some(tag), rest))
}

fn take_part(bytes: &[u8]) -> Option<(Option<Span>, &[u8])>
    ensures { IfSome result (λ x. bytes.now ≡ spaced (part_fields x.0) ++ x.1.now) }
{
    let (there, rest) = take_flag(bytes)?;
    if !there {
        return Some((None, rest));
    }
    let (span, rest) = take_span(rest)?;
    Some((Some(span), rest))
}

/// A message whose kind's number was read.
fn take_viewer_state(bytes: &[u8]) -> Option<(Note, &[u8])>
    ensures { IfSome result (λ x.
        spaced (0 ∷ []) ++ bytes.now ≡ spaced (note_fields x.0) ++ x.1.now) }
{
    let (tenancy, rest) = take_tenancy(bytes)?;
    let (visit, rest) = take_number(rest)?;
    let state = State { tenancy, visit };
    Some((Note::ViewerState(state), rest))
}

fn take_mirror_state(bytes: &[u8]) -> Option<(Note, &[u8])>
    ensures { IfSome result (λ x.
        spaced (1 ∷ []) ++ bytes.now ≡ spaced (note_fields x.0) ++ x.1.now) }
{
    let (tenancy, rest) = take_tenancy(bytes)?;
    let (visit, rest) = take_number(rest)?;
    let (piece, rest) = take_short(rest)?;
    let state = PieceState {
        tenancy,
        visit,
        piece,
    };
    Some((Note::MirrorState(state), rest))
}

fn take_start(bytes: &[u8]) -> Option<(Note, &[u8])>
    ensures { IfSome result (λ x.
        spaced (2 ∷ []) ++ bytes.now ≡ spaced (note_fields x.0) ++ x.1.now) }
{
    let (ask, rest) = take_ask(bytes)?;
    let (redundant, rest) = take_flag(rest)?;
    Some((Note::Start { redundant, ask }, rest))
}

fn take_deschedule(bytes: &[u8]) -> Option<(Note, &[u8])>
    ensures { IfSome result (λ x.
        spaced (3 ∷ []) ++ bytes.now ≡ spaced (note_fields x.0) ++ x.1.now) }
{
    let (instance, rest) = take_short(bytes)?;
    let (tag, rest) = take_tag(rest)?;
    let instance = Instance(instance);
    Some((Note::Deschedule { instance, tag }, rest))
}

fn take_kill(bytes: &[u8]) -> Option<(Note, &[u8])>
    ensures { IfSome result (λ x.
        spaced (4 ∷ []) ++ bytes.now ≡ spaced (note_fields x.0) ++ x.1.now) }
{
    let (instance, rest) = take_short(bytes)?;
    let (slot, rest) = take_short(rest)?;
    let (visit, rest) = take_number(rest)?;
    let note = Note::Kill {
        instance: Instance(instance),
        slot: SlotNo(slot),
        visit,
    };
    Some((note, rest))
}

fn take_placed(bytes: &[u8]) -> Option<(Note, &[u8])>
    ensures { IfSome result (λ x.
        spaced (5 ∷ []) ++ bytes.now ≡ spaced (note_fields x.0) ++ x.1.now) }
{
    let (tenancy, rest) = take_tenancy(bytes)?;
    Some((Note::Placed(tenancy), rest))
}

fn take_read_ask(bytes: &[u8]) -> Option<(Note, &[u8])>
    ensures { IfSome result (λ x.
        spaced (7 ∷ []) ++ bytes.now ≡ spaced (note_fields x.0) ++ x.1.now) }
{
    let (want, rest) = take_want(bytes)?;
    Some((Note::ReadAsk(want), rest))
}

fn take_read_done(bytes: &[u8]) -> Option<(Note, &[u8])>
    ensures { IfSome result (λ x.
        spaced (8 ∷ []) ++ bytes.now ≡ spaced (note_fields x.0) ++ x.1.now) }
{
    let (want, rest) = take_want(bytes)?;
    let (part, rest) = take_part(rest)?;
    Some((Note::ReadDone { want, part }, rest))
}

fn take_whole(bytes: &[u8]) -> Option<(Note, &[u8])>
    ensures { IfSome result (λ x.
        spaced (9 ∷ []) ++ bytes.now ≡ spaced (note_fields x.0) ++ x.1.now) }
{
    let (want, rest) = take_want(bytes)?;
    let (sent, rest) = take_number(rest)?;
    let (part, rest) = take_span(rest)?;
    Some((Note::Whole { want, sent, part }, rest))
}

fn take_piece(bytes: &[u8]) -> Option<(Note, &[u8])>
    ensures { IfSome result (λ x.
        spaced (10 ∷ []) ++ bytes.now ≡ spaced (note_fields x.0) ++ x.1.now) }
{
    let (want, rest) = take_want(bytes)?;
    let (sent, rest) = take_number(rest)?;
    let (part, rest) = take_span(rest)?;
    Some((Note::Piece { want, sent, part }, rest))
}

fn take_back(bytes: &[u8]) -> Option<(Note, &[u8])>
    ensures { IfSome result (λ x.
        spaced (11 ∷ []) ++ bytes.now ≡ spaced (note_fields x.0) ++ x.1.now) }
{
    let (from, rest) = take_number(bytes)?;
    Some((Note::Back { from }, rest))
}

fn take_by_kind(kind: u64, bytes: &[u8]) -> Option<(Note, &[u8])>
    ensures { IfSome result (λ x.
        spaced (kind ∷ []) ++ bytes.now ≡ spaced (note_fields x.0) ++ x.1.now) }
{
    match kind {
        0 => take_viewer_state(bytes),
        1 => take_mirror_state(bytes),
        2 => take_start(bytes),
        3 => take_deschedule(bytes),
        4 => take_kill(bytes),
        5 => take_placed(bytes),
        6 => Some((Note::Heartbeat, bytes)),
        7 => take_read_ask(bytes),
        8 => take_read_done(bytes),
        9 => take_whole(bytes),
        10 => take_piece(bytes),
        11 => take_back(bytes),
        _ => None,
    }
}

/// A link and a message, and what stands behind them.
fn take_note(bytes: &[u8]) -> Option<(LinkNo, Note, &[u8])>
    ensures { IfSome result (λ x. bytes.now ≡ spaced (x.0.0 ∷ note_fields x.1) ++ x.2.now) }
{
    let (link, rest) = take_short(bytes)?;
    let (kind, rest) = take_number(rest)?;
    let (note, rest) = take_by_kind(kind, rest)?;
    Some((LinkNo(link), note, rest))
}

fn take_got(bytes: &[u8]) -> Option<(What, &[u8])>
    ensures { IfSome result (λ x. (what_word x.0 ≡ word.Got)
        × (bytes.now ≡ spaced (what_fields x.0) ++ x.1.now)) }
{
    let (link, note, rest) = take_note(bytes)?;
    Some((What::Got(link, note), rest))
}

fn take_sent(bytes: &[u8]) -> Option<(What, &[u8])>
    ensures { IfSome result (λ x. (what_word x.0 ≡ word.Sent)
        × (bytes.now ≡ spaced (what_fields x.0) ++ x.1.now)) }
{
    let (link, note, rest) = take_note(bytes)?;
    Some((What::Sent(link, note), rest))
}

fn take_took(bytes: &[u8]) -> Option<(What, &[u8])>
    ensures { IfSome result (λ x. (what_word x.0 ≡ word.Took)
        × (bytes.now ≡ spaced (what_fields x.0) ++ x.1.now)) }
{
    let (record, rest) = take_record(bytes)?;
    Some((What::Took(record), rest))
}

fn take_dropped(bytes: &[u8]) -> Option<(What, &[u8])>
    ensures { IfSome result (λ x. (what_word x.0 ≡ word.Dropped)
        × (bytes.now ≡ spaced (what_fields x.0) ++ x.1.now)) }
{
    let (record, rest) = take_record(bytes)?;
    Some((What::Dropped(record), rest))
}

fn take_queued(bytes: &[u8]) -> Option<(What, &[u8])>
    ensures { IfSome result (λ x. (what_word x.0 ≡ word.Queued)
        × (bytes.now ≡ spaced (what_fields x.0) ++ x.1.now)) }
{
    let (instance, rest) = take_short(bytes)?;
    let (disk, rest) = take_short(rest)?;
    Some((What::Queued(Instance(instance), DiskNo(disk)), rest))
}

fn take_unqueued(bytes: &[u8]) -> Option<(What, &[u8])>
    ensures { IfSome result (λ x. (what_word x.0 ≡ word.Unqueued)
        × (bytes.now ≡ spaced (what_fields x.0) ++ x.1.now)) }
{
    let (instance, rest) = take_short(bytes)?;
    Some((What::Unqueued(Instance(instance)), rest))
}

fn take_put(bytes: &[u8]) -> Option<(What, &[u8])>
    ensures { IfSome result (λ x. (what_word x.0 ≡ word.Put)
        × (bytes.now ≡ spaced (what_fields x.0) ++ x.1.now)) }
{
    let (tenancy, rest) = take_tenancy(bytes)?;
    Some((What::Put(tenancy), rest))
}

/// What an entry with this word says, and what stands behind it. None is given of the words of few entries.
fn take_what(word: Word, bytes: &[u8]) -> Option<(What, &[u8])>
    ensures { IfSome result (λ x. (what_word x.0 ≡ word)
        × (bytes.now ≡ spaced (what_fields x.0) ++ x.1.now)) }
{
    match word {
        Word::Got => take_got(bytes),
        Word::Sent => take_sent(bytes),
        Word::Took => take_took(bytes),
        Word::Dropped => take_dropped(bytes),
        Word::Queued => take_queued(bytes),
        Word::Unqueued => take_unqueued(bytes),
        Word::Put => take_put(bytes),
        _ => None,
    }
}

/// What stands behind this word's letters, if the bytes begin with them.
fn behind_letters(word: Word, bytes: &[u8]) -> Option<&[u8]>
    ensures { IfSome result (λ x. bytes.now ≡ letters word ++ x.now) }
{
    bytes.strip_prefix(word.letters())
}

/// The entry at the front whose word, beat and reading are read here, and what stands behind it.
fn take_entry(bytes: &[u8]) -> Option<(Entry, &[u8])>
    ensures { IfSome result (λ x. bytes.now ≡ line_of (item.Entry x.0) ++ x.1.now) }
{
    let word = word_in(bytes);
    let rest = behind_letters(word, bytes)?;
    let (beat, rest) = take_number(rest)?;
    let (reading, rest) = take_number(rest)?;
    let (what, rest) = take_what(word, rest)?;
    let stamp = Stamp { beat, reading };
    Some((Entry { stamp, what }, rest))
}

/// The numbers of an entry fit their types, since it is a value of the program.
fn entry_fits(e: Entry)
    ensures { ItemFits (item.Entry e) }
{}

/// The entry that the first line says, if it is read here, and what stands behind the line's feed. A line of one for
/// which none is given is to be read otherwise.
pub fn entry_line(bytes: &[u8]) -> Option<(Entry, &[u8])>
    ensures found { IfSome result (λ x.
        bytes.now ≡ line_of (item.Entry x.0) ++ 10 ∷ x.1.now) }
    ensures fits { IfSome result (λ x. ItemFits (item.Entry x.0)) }
{
    let (entry, rest) = take_entry(bytes)?;
    let (feed, behind) = rest.split_first()?;
    if *feed != b'\n' {
        return None;
    }
    entry_fits(entry);
    Some((entry, behind))
}
