//! Keys of maps, which tell contents apart byte by byte and copy none.
ghost use Rattle.std.specs.Prelude.{◌≡◌, Some, [], refl, length, nat_eq, ℤ};
ghost use Rattle.std.specs.Ordering.{nat_cmp, ordering_then};
ghost use Rattle.std.specs.Cmp.{partial_equiv_from_equiv};
ghost use Rattle.std.specs.Cmp.Lexicographic.{pointwise, slice_cmp, nat_list_eq_equiv, nat_list_cmp_total, texts_ties};
ghost use Rattle.std.specs.Cmp.Lexicographic.{texts_po};
ghost use Rattle.sheet_types.specs.World.{link_key};
ghost use Rattle.field_changes.specs.Keys.{number_key};
ghost use Rattle.field_changes.specs.Keys.{sign, numbered, head_of, words_of, body_of, content_key, key_of, item_mark};
ghost use Rattle.field_changes.specs.Keys.{rank_key};

use sheet_types::command::{Content, Item, Relation};
use sheet_types::receipt::MovedKind;
use std::cmp::Ordering;
use std::marker::Model;
use uuid::Uuid;

/// A number, an identity and a content, as a key. To a contract it is the list of the number, the
/// identity behind its length, and what tells contents apart.
#[derive(Drop)]
pub(crate) struct Key<'a> {
    rank: u64,
    base: Uuid,
    content: &'a Content,
}

impl<'a> Model for Key<'a> {
    ghost use Rattle.std.specs.Prelude.{List, ℕ};
    ghost use Rattle.field_changes.specs.Keys.{key_of};

    ghost Value = { List ℕ };

    ghost view = { λ k. key_of k.rank k.base k.content.now };
}

impl<'a> Key<'a> {
    /// An identity and a content.
    pub(crate) fn of_mark(base: Uuid, content: &'a Content) -> Key<'a>
        ensures { result ≡ key_of 0 base content.now }
    {
        Key {
            rank: 0,
            base,
            content,
        }
    }

    /// An item of a package.
    pub(crate) fn of_item(item: &'a Item) -> Key<'a>
        ensures { result ≡ item_mark item.now }
    {
        Key::of_mark(item.identity, &item.content)
    }

    /// A content, and a place among those like it.
    pub(crate) fn of_rank(rank: u64, content: &'a Content) -> Key<'a>
        ensures { result ≡ rank_key rank content.now }
    {
        Key {
            rank,
            base: Uuid::nil(),
            content,
        }
    }
}

// Whether a number is below 0.
fn sign(number: i64) -> u64
    ensures { result ≡ sign number }
{
    if number < 0 { 1 } else { 0 }
}

// The kind, the length of what has any length before other bytes, and the numbers of a content.
fn head_of(content: &Content) -> [u64; 7]
    ensures { result ≡ head_of content.now }
{
    match content {
        Content::Tile {
            zoom,
            column,
            row,
            ..
        } => key_of_numbers(1, *zoom, *column, *row),
        Content::Media { content_type, .. } => {
            [2, content_type.as_str().len() as u64, 0, 0, 0, 0, 0]
        }
        Content::Row { x, y, code, .. } => key_of_numbers(3, *x, *y, *code),
    }
}

// A kind and three numbers.
fn key_of_numbers(kind: u64, a: i64, b: i64, c: i64) -> [u64; 7]
    ensures { result ≡ numbered kind a b c }
{
    [
        kind,
        sign(a),
        a.unsigned_abs(),
        sign(b),
        b.unsigned_abs(),
        sign(c),
        c.unsigned_abs(),
    ]
}

// A content type.
fn words_of(content: &Content) -> &[u8]
    ensures { result.now ≡ words_of content.now }
{
    match content {
        Content::Media { content_type, .. } => content_type.as_str().as_bytes(),
        Content::Tile { .. } | Content::Row { .. } => &[],
    }
}

// The bytes of a tile or a medium, or a label.
fn body_of(content: &Content) -> &[u8]
    ensures { result.now ≡ body_of content.now }
{
    match content {
        Content::Tile { bytes, .. } | Content::Media { bytes, .. } => bytes.as_slice(),
        Content::Row { label, .. } => label.as_str().as_bytes(),
    }
}

// The order of what stands behind heads.
fn rest_order(a: &Content, b: &Content) -> Ordering
    ensures { result ≡ ordering_then (slice_cmp nat_cmp (words_of a.now) (words_of b.now))
        (slice_cmp nat_cmp (body_of a.now) (body_of b.now)) }
{
    let words = words_of(a).cmp(words_of(b));
    let bodies = body_of(a).cmp(body_of(b));
    words.then(bodies)
}

/// The order of contents, by which two are equal where all of them is. Bytes are compared only where
/// the heads are one.
#[tactic(auto, using(crate::proofs::KeyOrder::content_order))]
pub(crate) fn content_order(a: &Content, b: &Content) -> Ordering
    ensures { result ≡ slice_cmp nat_cmp (content_key a.now) (content_key b.now) }
{
    match head_of(a).cmp(&head_of(b)) {
        Ordering::Equal => rest_order(a, b),
        Ordering::Less => Ordering::Less,
        Ordering::Greater => Ordering::Greater,
    }
}

// The order of the bytes, of which both have as many.
fn bytes_order(a: &[u8; 16], b: &[u8; 16]) -> Ordering
    ensures order { result ≡ slice_cmp nat_cmp a.now b.now }
    ensures long { length a.now ≡ length b.now }
{
    a.cmp(b)
}

impl<'a> PartialEq for Key<'a> {
    ghost eq = { pointwise nat_eq };

    ghost laws = { partial_equiv_from_equiv nat_list_eq_equiv };

    fn eq(&self, other: &Key<'a>) -> bool {
        self.cmp(other).is_eq()
    }
}

impl<'a> Eq for Key<'a> {
    ghost laws = { nat_list_eq_equiv };
}

impl<'a> PartialOrd for Key<'a> {
    ghost partial_cmp = { λ x y. Some (slice_cmp nat_cmp x y) };

    ghost laws = { texts_po };

    fn partial_cmp(&self, other: &Key<'a>) -> Option<Ordering> {
        Some(self.cmp(other))
    }
}

impl<'a> Ord for Key<'a> {
    ghost cmp = { slice_cmp nat_cmp };

    ghost total = { nat_list_cmp_total };

    ghost matches_partial_cmp = { λ x y. refl };

    ghost matches_eq = { texts_ties };

    #[tactic(auto, using(crate::proofs::KeyOrder::key_order))]
    fn cmp(&self, other: &Key<'a>) -> Ordering {
        let ranks = self.rank.cmp(&other.rank);
        let bases = bytes_order(self.base.as_bytes(), other.base.as_bytes());
        match ranks.then(bases) {
            Ordering::Equal => content_order(self.content, other.content),
            Ordering::Less => Ordering::Less,
            Ordering::Greater => Ordering::Greater,
        }
    }
}

/// A link, as a key.
#[derive(Drop)]
pub(crate) struct LinkKey {
    link: Relation,
}

impl Model for LinkKey {
    ghost use Rattle.std.specs.Prelude.{List, ℕ};
    ghost use Rattle.sheet_types.specs.World.{link_key};

    ghost Value = { List ℕ };

    ghost view = { λ k. link_key k.link };
}

impl LinkKey {
    pub(crate) fn of(link: &Relation) -> LinkKey
        ensures { result ≡ link_key link.now }
    {
        LinkKey { link: *link }
    }
}

impl PartialEq for LinkKey {
    ghost eq = { pointwise nat_eq };

    ghost laws = { partial_equiv_from_equiv nat_list_eq_equiv };

    fn eq(&self, other: &LinkKey) -> bool {
        self.cmp(other).is_eq()
    }
}

impl Eq for LinkKey {
    ghost laws = { nat_list_eq_equiv };
}

impl PartialOrd for LinkKey {
    ghost partial_cmp = { λ x y. Some (slice_cmp nat_cmp x y) };

    ghost laws = { texts_po };

    fn partial_cmp(&self, other: &LinkKey) -> Option<Ordering> {
        Some(self.cmp(other))
    }
}

impl Ord for LinkKey {
    ghost cmp = { slice_cmp nat_cmp };

    ghost total = { nat_list_cmp_total };

    ghost matches_partial_cmp = { λ x y. refl };

    ghost matches_eq = { texts_ties };

    #[tactic(auto, using(sheet_types::proofs::KeyOrder::slice_cmp_append))]
    fn cmp(&self, other: &LinkKey) -> Ordering {
        let kinds = self
            .link
            .mapping
            .link_kind()
            .number()
            .cmp(&other.link.mapping.link_kind().number());
        let bases = bytes_order(self.link.base.as_bytes(), other.link.base.as_bytes());
        let ends = bytes_order(self.link.other.as_bytes(), other.link.other.as_bytes());
        kinds.then(bases.then(ends))
    }
}

/// A kind and a number, as a key.
#[derive(Drop)]
pub(crate) struct NumberKey {
    kind: MovedKind,
    number: i64,
}

impl Model for NumberKey {
    ghost use Rattle.std.specs.Prelude.{List, ℕ};
    ghost use Rattle.field_changes.specs.Keys.{number_key};

    ghost Value = { List ℕ };

    ghost view = { λ k. number_key k.kind k.number };
}

impl NumberKey {
    pub(crate) fn of(kind: MovedKind, number: i64) -> NumberKey
        ensures { result ≡ number_key kind number }
    {
        NumberKey { kind, number }
    }
}

// The numbers of a kind and a number.
fn numbers_of(kind: MovedKind, number: i64) -> [u64; 3]
    ensures { result ≡ number_key kind number }
{
    [
        u64::from(kind.number()),
        sign(number),
        number.unsigned_abs(),
    ]
}

impl PartialEq for NumberKey {
    ghost eq = { pointwise nat_eq };

    ghost laws = { partial_equiv_from_equiv nat_list_eq_equiv };

    fn eq(&self, other: &NumberKey) -> bool {
        self.cmp(other).is_eq()
    }
}

impl Eq for NumberKey {
    ghost laws = { nat_list_eq_equiv };
}

impl PartialOrd for NumberKey {
    ghost partial_cmp = { λ x y. Some (slice_cmp nat_cmp x y) };

    ghost laws = { texts_po };

    fn partial_cmp(&self, other: &NumberKey) -> Option<Ordering> {
        Some(self.cmp(other))
    }
}

impl Ord for NumberKey {
    ghost cmp = { slice_cmp nat_cmp };

    ghost total = { nat_list_cmp_total };

    ghost matches_partial_cmp = { λ x y. refl };

    ghost matches_eq = { texts_ties };

    fn cmp(&self, other: &NumberKey) -> Ordering {
        let mine = numbers_of(self.kind, self.number);
        let theirs = numbers_of(other.kind, other.number);
        mine.cmp(&theirs)
    }
}
